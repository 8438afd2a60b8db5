//! Rows: hosts in memory and of the system, and what a change does on them.
#![tactic(auto)]

ghost use Rattle.std.specs.Prelude.{◌≡◌, IfOk, length};

#[cfg(test)]
mod services;

#[cfg(test)]
mod tests {
    use mem_host::{Hand, MemHost, Move, Taken};
    use one_host::{Access, Entry, Found, Handle, Host, Kind, Lock, Owned};
    use replaced_images::{Names, replace};
    use std::alloc::Global;
    use std::test::Fail;
    use system_host::SystemHost;

    const NAMES: Names = Names {
        image: "a.d64",
        log: "a.d64-log",
        making: "a.d64-log.new",
    };

    const IMAGE: Handle = Handle { number: 0 };

    /// An image of which each byte is this one.
    fn image(alloc: Global, byte: u8) -> Result<Vec<u8>, Fail>
        ensures { IfOk result (λ image. length image.items ≡ 174848) }
    {
        let mut image = Vec::new(alloc);
        image.resize(174848, byte)?;
        Ok(image)
    }

    /// A folder with an image of ones, where so many calls pass.
    fn host(alloc: Global, calls: usize) -> Result<MemHost, Fail> {
        let path = b"a.d64".to_vec(alloc)?;
        let beside = b"a.d64".to_vec(alloc)?;
        let moves = vec![in alloc;
            Move::Made(0, path, Kind::Regular, 0o644),
            Move::Changed(0, image(alloc, 1)?),
            Move::Synced(0),
            Move::FolderSynced(beside),
        ]?;
        Ok(MemHost::new(alloc, moves, Vec::new(alloc), calls))
    }

    /// The first and the last byte of an image's file.
    fn ends<H: Host>(host: &mut H, file: Handle) -> [u8; 2] {
        let mut first = [0; 1];
        let mut last = [0; 1];
        let _ = host.read_at(file, 0, &mut first);
        let _ = host.read_at(file, 174847, &mut last);
        [first[0], last[0]]
    }

    // A change makes 693 calls: four for the log, two for its name, one for each of the 683 sectors and a sync, two that take
    // the log away, and one that closes it. Three calls more look at what there is.
    #[test]
    fn image_is_replaced(rt: HostRuntime) -> Result<(), Fail> {
        let mut host = Owned {
            host: host(rt.alloc(), 696)?,
        };
        let new = image(rt.alloc(), 2)?;
        assert!(rt; replace(&mut host, &NAMES, IMAGE, b"log", new.as_slice()).is_ok());
        assert!(rt; ends(&mut host, IMAGE) == [2, 2]);
        assert!(rt; matches!(host.look(NAMES.log), Ok(Found::Nothing)));
        Ok(())
    }

    #[test]
    fn calls_fail_in_turn(rt: HostRuntime) -> Result<(), Fail> {
        let new = image(rt.alloc(), 2)?;
        for calls in 0..8 {
            let mut host = host(rt.alloc(), calls)?;
            assert!(rt; replace(&mut host, &NAMES, IMAGE, b"log", new.as_slice()).is_err());
        }
        Ok(())
    }

    #[test]
    fn name_comes_to_lead_elsewhere(rt: HostRuntime) -> Result<(), Fail> {
        let mut host = host(rt.alloc(), 100)?;
        host.lend_a_hand(Hand {
            calls: 1,
            path: b"a.d64".to_vec(rt.alloc())?,
            entry: Entry::Nothing,
        });
        assert!(rt; matches!(host.leads("a.d64", IMAGE), Ok(true)));
        assert!(rt; matches!(host.leads("a.d64", IMAGE), Ok(false)));
        assert!(rt; ends(&mut host, IMAGE) == [1, 1]);
        Ok(())
    }

    #[test]
    fn locks_keep_out(rt: HostRuntime) -> Result<(), Fail> {
        let mut host = host(rt.alloc(), 100)?;
        host.take(Some(Taken {
            number: 0,
            how: Lock::Shared,
        }));
        assert!(rt; matches!(host.lock(IMAGE, Lock::Shared), Ok(true)));
        assert!(rt; matches!(host.lock(IMAGE, Lock::Alone), Ok(false)));
        Ok(())
    }

    #[test]
    fn system_does_so_too(rt: HostRuntime) -> Result<(), Fail> {
        let mut host = SystemHost::new(&rt, rt.alloc(), rt.reader(), rt.stdout(), rt.stderr());
        let Ok(file) = host.make("a.d64", 0o600) else {
            assert!(rt; false);
            return Ok(());
        };
        let old = image(rt.alloc(), 1)?;
        let new = image(rt.alloc(), 2)?;
        assert!(rt; host.write_at(file, 0, old.as_slice()).is_ok());
        assert!(rt; matches!(host.open("a.d64", Access::Read), Ok(again) if again == file));
        assert!(rt; matches!(host.lock(file, Lock::Alone), Ok(true)));
        assert!(rt; replace(&mut host, &NAMES, file, b"log", new.as_slice()).is_ok());
        assert!(rt; ends(&mut host, file) == [2, 2]);
        assert!(rt; matches!(host.size(file), Ok(174848)));
        assert!(rt; matches!(host.leads("a.d64", file), Ok(true)));
        assert!(rt; matches!(host.look("a.d64-log"), Ok(Found::Nothing)));
        assert!(rt; host.rename("a.d64", "b.d64").is_ok());
        assert!(rt; matches!(host.leads("b.d64", file), Ok(true)));
        assert!(rt; host.remove("b.d64").is_ok());
        assert!(rt; ends(&mut host, file) == [2, 2]);
        assert!(rt; host.close(file).is_ok());
        assert!(rt; host.size(file).is_err());
        Ok(())
    }
}
