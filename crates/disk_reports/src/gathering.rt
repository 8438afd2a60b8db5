//! The faults of a disk that hold, in the order of the disk.
ghost use Rattle.std.specs.Prelude.{◌≡◌, ◌≤◌, ◌↔◌, ◌∷◌, [], IfErr, IfOk, IsTrue, OnOk, length};
ghost use Rattle.disk_reports.specs.AllFaults.{AreOthers, HoldsToo, IsGathered, faults_at};
ghost use Rattle.disk_layout.specs.Number.{number_of, place_of};
ghost use Rattle.command_faults.specs.declared.faults.CommandFault.TheVariants as faults;

use crate::holding::holds;
use crate::links::Links;
use crate::showing;
use command_faults::CommandFault;
use d64_image::{Place, SECTORS};
use disk_layout::Fault;
use std::alloc::Global;

/// The faults that a sector may have, in the order in which they are listed.
fn faults_of(place: Place) -> [Fault; 9]
    ensures { result ≡ faults_at place }
{
    [
        Fault::BadLink(place),
        Fault::Loop(place),
        Fault::OwnedTwice(place),
        Fault::BadType(place),
        Fault::Unclosed(place),
        Fault::BadLength(place),
        Fault::BadSide(place),
        Fault::CountWrong(place),
        Fault::MapWrong(place),
    ]
}

/// Whether two faults have the same number.
fn same_number(one: Fault, other: Fault) -> bool
    ensures { IsTrue result ↔ (number_of one ≡ number_of other) }
{
    one.number() == other.number()
}

/// Whether two faults are at the same sector.
fn same_place(one: Fault, other: Fault) -> bool
    ensures { IsTrue result ↔ (place_of one ≡ place_of other) }
{
    showing::is_same(one.place(), other.place())
}

/// Whether two faults are the same.
fn is_same(one: Fault, other: Fault) -> bool
    ensures { IsTrue result ↔ (one ≡ other) }
{
    if !same_number(one, other) {
        return false;
    }
    same_place(one, other)
}

/// Whether the fault holds and isn't the first one.
fn holds_too(links: &Links, first: Fault, fault: Fault) -> bool
    requires { length links.now.trails.items ≤ 144 }
    ensures { IsTrue result ↔ HoldsToo links.now first fault }
{
    if is_same(fault, first) {
        return false;
    }
    holds(links, fault)
}

/// Appends the fault if it holds and isn't the first one. The only error is `NoMemory`.
fn add_if(
    links: &Links,
    first: Fault,
    fault: Fault,
    found: &mut Vec<Fault>,
) -> Result<(), CommandFault>
    requires { length links.now.trails.items ≤ 144 }
    ensures ok { OnOk result (IsGathered links.now first (fault ∷ []) found.old.items found.new.items) }
    ensures err { IfErr result (λ fault. fault ≡ faults.NoMemory) }
{
    if !holds_too(links, first, fault) {
        return Ok(());
    }
    if found.push(fault).is_err() {
        return Err(CommandFault::NoMemory);
    }
    Ok(())
}

/// Appends those of several faults that hold and aren't the first one.
fn add_those(
    links: &Links,
    first: Fault,
    candidates: &[Fault],
    found: &mut Vec<Fault>,
) -> Result<(), CommandFault>
    requires { length links.now.trails.items ≤ 144 }
    ensures ok { OnOk result (IsGathered links.now first candidates.now found.old.items found.new.items) }
    ensures err { IfErr result (λ fault. fault ≡ faults.NoMemory) }
{
    for &fault in candidates {
        add_if(links, first, fault, found)?;
    }
    Ok(())
}

/// All faults that hold except the first one, in the order of the disk. The only error is `NoMemory`.
pub(crate) fn find_others(
    alloc: Global,
    links: &Links,
    first: Fault,
) -> Result<Vec<Fault>, CommandFault>
    requires { length links.now.trails.items ≤ 144 }
    ensures ok { IfOk result (λ found. AreOthers links.now first found.items) }
    ensures err { IfErr result (λ fault. fault ≡ faults.NoMemory) }
{
    let mut found = Vec::new(alloc);
    for index in 0..SECTORS {
        add_those(links, first, &faults_of(Place::nth(index)), &mut found)?;
    }
    Ok(found)
}
