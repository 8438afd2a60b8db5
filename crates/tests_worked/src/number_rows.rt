//! The numbers of faults.
use crate::comparing::same;
use crate::disks::at;
use disk_layout::Fault;
use host_session::{OpenFault, PlayFault, ScriptFault};
use rel_records::RelFault;

/// Those of the calls on records, in the order of their numbers.
static RECORDS: [RelFault; 7] = [
    RelFault::NotFound,
    RelFault::NotPresent,
    RelFault::Overflow,
    RelFault::TooLarge,
    RelFault::Full,
    RelFault::Device,
    RelFault::Exists,
];

#[test]
fn faults_are_numbered(rt: HostRuntime) {
    for (fault, number) in RECORDS.iter().zip(1..8u8) {
        same(&rt, fault.number(), number);
    }
    let first = OpenFault::Layout(Fault::Device(at(17, 0)));
    let openings = [
        first.number(),
        OpenFault::NoStock.number(),
        OpenFault::NoRequests.number(),
        OpenFault::BadCard(3).number(),
        OpenFault::BadRequestCard(2).number(),
        OpenFault::TwoIntents.number(),
        OpenFault::Device.number(),
    ];
    same(&rt, openings, [1, 2, 3, 4, 5, 6, 7]);
    let of_runs = [
        PlayFault::Open(first).number(),
        PlayFault::NoMemory.number(),
        PlayFault::Device.number(),
        ScriptFault::Open(first).number(),
        ScriptFault::BadLine(1).number(),
        ScriptFault::Output.number(),
        ScriptFault::Device.number(),
    ];
    same(&rt, of_runs, [1, 2, 3, 1, 2, 3, 4]);
}
