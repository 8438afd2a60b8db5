//! An input that fails once: the run ends, and it isn't asked again.
use crate::comparing::same_at;
use crate::disks::fresh;
use crate::logged::logs::begun;
use host_session::{LoopFault, PrintedReplies};
use line_server::{Room, serve_batches};
use std::io::{self, BufRead, ErrorKind, Read};
use std::process::Abort;

/// An input of which the first call fails so, if at all, and which gives its bytes from then on.
#[derive(Drop)]
struct Faltering {
    fails: Option<ErrorKind>,
    left: &'static [u8],
}

impl Read for Faltering {
    fn read(&mut self, _buf: &mut [u8]) -> io::Result<usize> {
        Err(io::Error::from(ErrorKind::Unsupported))
    }
}

impl BufRead for Faltering {
    fn fill_buf(&mut self) -> io::Result<&[u8]> {
        match self.fails.take() {
            Some(kind) => Err(io::Error::from(kind)),
            None => Ok(self.left),
        }
    }

    fn consume(&mut self, amount: usize) {
        self.left = self.left.get(amount..).unwrap_or_default();
    }
}

/// How a service over such an input ends, and what it prints.
fn served(
    rt: &(impl Abort + AllocGlobal),
    fails: Option<ErrorKind>,
) -> (Option<LoopFault>, Vec<u8>) {
    let mut input = Faltering {
        fails,
        left: b"1,1,S,1,5\n",
    };
    let disk = fresh(rt);
    let (image, _) = disk.bytes().as_chunks::<256>();
    let mut log = begun(rt, image).expect(rt, "a log");
    let mut room = Room::new(rt.alloc()).expect(rt, "there is memory");
    let mut out = PrintedReplies::new(Vec::new(rt.alloc()));
    let ended = serve_batches(disk, &mut log, &mut input, &mut out, &mut room);
    let fault = match ended {
        Ok(_) => None,
        Err((fault, _)) => Some(fault),
    };
    (fault, out.into_inner())
}

/// Checks that it ends so, with this printed.
fn ends(
    rt: &(impl Abort + AllocGlobal),
    fails: Option<ErrorKind>,
    wanted: Option<LoopFault>,
    printed: &[u8],
) {
    let (fault, out) = served(rt, fails);
    same_at(rt, fault, wanted, "end");
    same_at(rt, out.as_slice(), printed, "printed");
}

#[test]
fn a_failed_input_is_not_asked_again(rt: HostRuntime) {
    ends(&rt, None, None, b"1,1,DONE,5\n");
    ends(&rt, Some(ErrorKind::Interrupted), None, b"1,1,DONE,5\n");
    ends(&rt, Some(ErrorKind::Other), Some(LoopFault::Input), b"");
}
