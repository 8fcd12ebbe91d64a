// The limits of a peer in memory, reached and passed.
#![tactic(auto)]

ghost use Rattle.std.specs.Prelude.{IfOk};
ghost use Rattle.memory.specs.State.{Kept};

#[cfg(test)]
mod tests {
    use checkpoint::Entry;
    use decline::{Decline, Fault};
    use memory::{Memory, Unmade};
    use peer::{Body, Peer, WritablePeer};
    use revision::{Mark, Revision};
    use std::alloc::Global;
    use std::process::Abort;
    use std::test::Fail;

    // The tag that is the byte '1' eight times.
    const ONES: u64 = 0x3131_3131_3131_3131;

    // The revision of a generation with that tag.
    fn ones(generation: u8) -> Revision {
        Revision {
            generation,
            tag: ONES,
        }
    }

    // An empty peer.
    fn empty(heap: Global) -> Result<Memory, Fail>
        ensures { IfOk result (λ m. Kept m) }
    {
        Ok(Memory::new(heap, 1, 1)?)
    }

    // Writes a path to a document: each of its tags is one byte eight times, and it ends live and without a body. There
    // are tags for any generation, also for one past the limit.
    fn write<P: WritablePeer>(
        peer: &mut P,
        document: u8,
        generation: u8,
        tag: u8,
    ) -> Result<u32, Fault>
        requires { P.Peer.kept peer.old }
        ensures { P.Peer.kept peer.new }
    {
        let tags = [tag; 2048];
        let n = 8 * generation as usize;
        peer.path_write(&[document], generation, &tags[0..n], 0, b"")
    }

    // Kept: in these helpers the handle that a failed test stops by and the peer are two arguments, and the peer's condition is asked as by every call of it.
    // Writes a path of this length to each document from the first up to the end.
    fn write_all<P: WritablePeer>(
        rt: &impl Abort,
        peer: &mut P,
        first: u8,
        end: u8,
        generation: u8,
    ) -> Result<(), Fail>
        requires { P.Peer.kept peer.old }
        ensures { P.Peer.kept peer.new }
    {
        for document in first..end {
            assert_eq!(rt; write(peer, document, generation, b'1'), Ok(1));
        }
        Ok(())
    }

    // Writes this many roots to document A.
    fn write_roots<P: WritablePeer>(rt: &impl Abort, peer: &mut P, many: u8) -> Result<(), Fail>
        requires { P.Peer.kept peer.old }
        ensures { P.Peer.kept peer.new }
    {
        for tag in 0..many {
            assert_eq!(rt; write(peer, b'A', 1, tag), Ok(1));
        }
        Ok(())
    }

    // Fills the table of revisions: 200 for each of A to E, then 23 and one more for F.
    fn fill<P: WritablePeer>(rt: &impl Abort, peer: &mut P) -> Result<(), Fail>
        requires { P.Peer.kept peer.old }
        ensures { P.Peer.kept peer.new }
    {
        write_all(rt, peer, b'A', b'F', 200)?;
        write_all(rt, peer, b'F', b'G', 23)?;
        write_all(rt, peer, b'F', b'G', 24)
    }

    // The key of the log of a source.
    fn key(source: u8) -> [u8; 25] {
        let mut key = [0u8; 25];
        key[3] = source;
        key[7] = 1;
        key
    }

    // A log entry.
    fn entry(stamp: u64, position: u32) -> Entry {
        Entry { stamp, position }
    }

    // Writes a log of each source from 1 up to the end.
    fn write_logs<P: Peer>(rt: &impl Abort, peer: &mut P, end: u8) -> Result<(), Fail>
        requires { P.Peer.kept peer.old }
        ensures { P.Peer.kept peer.new }
    {
        for source in 1..end {
            assert_eq!(rt; peer.log_write(&key(source), entry(5, 0)), Ok(()));
        }
        Ok(())
    }

    #[test]
    fn documents(rt: HostRuntime) -> Result<(), Fail> {
        let mut peer = empty(rt.alloc())?;
        write_all(&rt, &mut peer, b'A', b'a', 1)?;
        assert_eq!(rt;
            write(&mut peer, b'a', 1, b'1'),
            Err(Fault::from(Decline::Full))
        );
        assert_eq!(rt; write(&mut peer, b'A', 2, b'1'), Ok(1));
        Ok(())
    }

    #[test]
    fn revisions(rt: HostRuntime) -> Result<(), Fail> {
        let mut peer = empty(rt.alloc())?;
        fill(&rt, &mut peer)?;
        assert_eq!(rt;
            write(&mut peer, b'F', 25, b'1'),
            Err(Fault::from(Decline::Full))
        );
        assert_eq!(rt; write(&mut peer, b'F', 24, b'1'), Ok(0));
        assert_eq!(rt; write(&mut peer, b'A', 7, b'1'), Ok(0));
        Ok(())
    }

    #[test]
    fn heads(rt: HostRuntime) -> Result<(), Fail> {
        let mut peer = empty(rt.alloc())?;
        write_roots(&rt, &mut peer, 64)?;
        assert_eq!(rt;
            write(&mut peer, b'A', 1, 64),
            Err(Fault::from(Decline::Full))
        );
        assert_eq!(rt;
            write(&mut peer, b'B', 1, 1),
            Err(Fault::from(Decline::Full))
        );
        assert_eq!(rt; write(&mut peer, b'A', 2, 63), Ok(1));
        assert_eq!(rt; peer.head_count(b"A"), Ok(64));
        Ok(())
    }

    #[test]
    fn sizes(rt: HostRuntime) -> Result<(), Fail> {
        let mut peer = empty(rt.alloc())?;
        let revision = Fault::from(Decline::Revision);
        assert_eq!(rt; write(&mut peer, b'A', 200, b'1'), Ok(1));
        assert_eq!(rt; write(&mut peer, b'A', 201, b'1'), Err(revision));
        assert_eq!(rt; write(&mut peer, b'A', 0, b'1'), Err(revision));
        assert_eq!(rt; peer.path_write(b"B", 2, &[1; 15], 0, b""), Err(revision));
        assert_eq!(rt; peer.path_write(b"B", 2, &[1; 24], 0, b""), Err(revision));
        assert_eq!(rt;
            peer.path_write(b"B", 1, &[1; 8], 0, &[2; 97]),
            Err(Fault::from(Decline::Body))
        );
        assert_eq!(rt; peer.path_write(b"B", 1, &[1; 8], 0, &[2; 96]), Ok(1));
        Ok(())
    }

    #[test]
    fn ids(rt: HostRuntime) -> Result<(), Fail> {
        let mut peer = empty(rt.alloc())?;
        assert_eq!(rt;
            peer.path_write(b"12345678901234567", 1, b"11111111", 0, b""),
            Err(Fault::from(Decline::Id))
        );
        assert_eq!(rt;
            peer.path_write(b"1234567890123456", 1, b"11111111", 0, b""),
            Ok(1)
        );
        assert_eq!(rt; peer.is_held(b"1234567890123456", ones(1)), Ok(true));
        Ok(())
    }

    #[test]
    fn logs(rt: HostRuntime) -> Result<(), Fail> {
        let mut peer = empty(rt.alloc())?;
        write_logs(&rt, &mut peer, 9)?;
        let full = Fault::from(Decline::Full);
        assert_eq!(rt; peer.log_write(&key(9), entry(5, 0)), Err(full));
        assert_eq!(rt; peer.log_write(&key(8), entry(6, 7)), Ok(()));
        assert_eq!(rt; peer.log_write(&key(1), entry(5, 0)), Ok(()));
        assert_eq!(rt; peer.log_entry(&key(8), 0), Ok(Some(entry(6, 7))));
        assert_eq!(rt; peer.log_entry(&key(9), 0), Ok(None));
        Ok(())
    }

    #[test]
    fn order_of_declines(rt: HostRuntime) -> Result<(), Fail> {
        let mut peer = empty(rt.alloc())?;
        assert_eq!(rt;
            peer.path_write(b"", 0, b"11111111", 2, &[2; 97]),
            Err(Fault::from(Decline::Id))
        );
        assert_eq!(rt;
            peer.path_write(b"A", 0, b"11111111", 2, &[2; 97]),
            Err(Fault::from(Decline::Revision))
        );
        assert_eq!(rt;
            peer.path_write(b"A", 1, b"11111111", 2, &[2; 97]),
            Err(Fault::from(Decline::Mark))
        );
        assert_eq!(rt;
            peer.path_write(b"A", 1, b"11111111", 1, &[2; 97]),
            Err(Fault::from(Decline::Body))
        );
        assert_eq!(rt; peer.path_write(b"A", 1, b"11111111", 1, &[2; 96]), Ok(1));
        Ok(())
    }

    // Generation 2 is held under another parent; generations 1 and 3 are missing, and there is no room for them.
    #[test]
    fn contradicted_when_full(rt: HostRuntime) -> Result<(), Fail> {
        let mut peer = empty(rt.alloc())?;
        fill(&rt, &mut peer)?;
        assert_eq!(rt;
            peer.path_write(b"F", 3, b"999999991111111177777777", 0, b""),
            Err(Fault::from(Decline::Contradiction))
        );
        assert_eq!(rt;
            peer.path_write(b"F", 3, b"999999998888888877777777", 0, b""),
            Err(Fault::from(Decline::Full))
        );
        Ok(())
    }

    #[test]
    fn making(rt: HostRuntime) {
        let stamp = Some(Unmade::Declined(Fault::from(Decline::Stamp)));
        let number = Some(Unmade::Declined(Fault::from(Decline::Number)));
        assert_eq!(rt; Memory::new(rt.alloc(), 0, 0).err(), stamp);
        assert_eq!(rt; Memory::new(rt.alloc(), 1, 0).err(), stamp);
        assert_eq!(rt; Memory::new(rt.alloc(), 0, 1).err(), number);
        assert_eq!(rt; Memory::new(rt.alloc(), 1, 1).err(), None);
    }

    #[test]
    fn waking(rt: HostRuntime) -> Result<(), Fail> {
        let mut peer = empty(rt.alloc())?;
        assert_eq!(rt; write(&mut peer, b'A', 2, b'1'), Ok(1));
        write_logs(&rt, &mut peer, 2)?;
        assert_eq!(rt; peer.wake(7), Ok(()));
        assert_eq!(rt; peer.start_stamp(), Ok(7));
        assert_eq!(rt; peer.wake(0), Err(Fault::from(Decline::Stamp)));
        assert_eq!(rt; peer.start_stamp(), Ok(7));
        assert_eq!(rt; peer.is_held(b"A", ones(2)), Ok(true));
        assert_eq!(rt; peer.log_entry(&key(1), 0), Ok(Some(entry(5, 0))));
        Ok(())
    }

    #[test]
    fn reads_of_tags(rt: HostRuntime) -> Result<(), Fail> {
        let mut peer = empty(rt.alloc())?;
        assert_eq!(rt; write(&mut peer, b'A', 200, b'1'), Ok(1));
        let mut short = [9u8; 1599];
        assert_eq!(rt;
            peer.tags_of(b"A", ones(3), &mut short),
            Err(Fault::from(Decline::Memory))
        );
        assert!(rt; short == [9; 1599]);
        let mut out = [9u8; 1600];
        assert_eq!(rt; peer.tags_of(b"A", ones(3), &mut out), Ok(24));
        assert!(rt; out.starts_with(&[b'1'; 24]));
        assert!(rt; out.ends_with(&[9; 1576]));
        assert_eq!(rt; peer.tags_of(b"A", ones(200), &mut out), Ok(1600));
        assert!(rt; out == [b'1'; 1600]);
        Ok(())
    }

    #[test]
    fn reads_of_bodies(rt: HostRuntime) -> Result<(), Fail> {
        let mut peer = empty(rt.alloc())?;
        assert_eq!(rt; peer.path_write(b"A", 1, b"11111111", 0, b"milk"), Ok(1));
        assert_eq!(rt; peer.path_write(b"B", 1, b"11111111", 1, &[2; 96]), Ok(1));
        let mut short = [9u8; 95];
        assert_eq!(rt;
            peer.body_of(b"A", ones(1), &mut short),
            Err(Fault::from(Decline::Memory))
        );
        assert!(rt; short == [9; 95]);
        let mut out = [9u8; 96];
        let milk = Body {
            mark: Mark::Live,
            length: 4,
        };
        assert_eq!(rt; peer.body_of(b"A", ones(1), &mut out), Ok(milk));
        assert!(rt; out.starts_with(b"milk"));
        assert!(rt; out.ends_with(&[9; 92]));
        let whole = Body {
            mark: Mark::Deleted,
            length: 96,
        };
        assert_eq!(rt; peer.body_of(b"B", ones(1), &mut out), Ok(whole));
        assert!(rt; out == [2; 96]);
        Ok(())
    }
}
