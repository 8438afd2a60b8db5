//! The images of the rows: those that `format` makes.
use ledger_cli::{Job, run};
use std::io::Cursor;
use std::process::Abort;

/// The image that `format` makes for two tills.
pub(crate) fn formatted(rt: &(impl AllocGlobal + Abort)) -> Vec<u8> {
    let job = Job::Format {
        image: "a.d64",
        tills: 2,
    };
    let mut file = Cursor::new(Vec::new(rt.alloc()));
    let (mut out, mut err) = (Vec::new(rt.alloc()), Vec::new(rt.alloc()));
    let status = run(
        rt.alloc(),
        &job,
        b"",
        b"",
        Some(&mut file),
        &mut out,
        &mut err,
    );
    assert!(rt; status == 0, "formatted");
    file.into_inner()
}
