// Calls of projects on examples. All of this crate is tests.
#![tactic(auto)]

#[cfg(test)]
mod tests {
    use cores::mini_ml::MiniMl;
    use project::calls::{BOOK_WORDS, open};
    use project::fault::Fault;
    use project::loading::load_order;
    use project::state::Open;
    use reader::read::SCRATCH_WORDS;
    use std::alloc::Global;
    use std::test::*;
    use store::layout::STORE_BYTES;
    use store::units::name_of;

    // A project with its memory.
    struct Bench {
        project: Open,
        store: Vec<u8>,
        book: Vec<u32>,
        scratch: Vec<u32>,
    }

    // A refusal: the number of its question, its place, and the first byte of the unit that it tells.
    // By numbers, so that number and place are tested too.
    type Told = (u8, Option<usize>, Option<u8>);

    fn told<K: Copy>(fault: Fault<K>) -> Told {
        let first = fault.unit.map(|name| (name >> 120) as u8);
        (fault.question.number(), fault.question.place(), first)
    }

    impl Bench {
        // A newly opened project in memory that held something else before.
        fn new(heap: Global) -> Result<Bench, Fail> {
            let mut store = vec![in heap; 7u8; STORE_BYTES]?;
            let mut book = vec![in heap; 7u32; BOOK_WORDS]?;
            let scratch = vec![in heap; 7u32; SCRATCH_WORDS]?;
            let project = open(&mut store, &mut book).map_err(|_| Fail::new("open refuses"))?;
            Ok(Bench {
                project,
                store,
                book,
                scratch,
            })
        }

        // Puts a unit.
        fn put(&mut self, text: &[u8]) -> Result<(), Told> {
            self.project
                .put(
                    &MiniMl,
                    &mut self.store,
                    &self.book,
                    &mut self.scratch,
                    text,
                )
                .map_err(told)
        }

        // Drops the unit of a name.
        fn drop_named(&mut self, name: &[u8]) -> Result<(), Told> {
            self.project
                .drop(&mut self.store, &self.book, name)
                .map_err(told)
        }

        // The first byte of the name of the k-th unit in load order.
        fn ordered(&mut self, k: usize) -> Result<Option<u8>, Told> {
            let order = load_order(&MiniMl, &self.store, &mut self.scratch).map_err(told)?;
            let Some(&place) = order.as_slice().get(k) else {
                return Ok(None);
            };
            let named = name_of(&self.store, usize::from(place));
            Ok(named.and_then(|(name, _)| name.first().copied()))
        }

        // Ends the project, and tells how many units it had.
        fn close(self) -> usize {
            let Bench {
                project,
                store: _,
                book: _,
                scratch: _,
            } = self;
            project.close()
        }
    }

    #[test]
    fn units_are_put_replaced_and_dropped(rt: HostRuntime) -> Result<(), Fail> {
        let mut b = Bench::new(rt.alloc())?;
        let first = b.put(b"module A = struct let x = 1 end");
        let other = b.put(b"module B = struct end [@@ rank 7 ]");
        let again = b.put(b"module A = struct end");
        let gone = b.drop_named(b"A");
        let twice = b.drop_named(b"A");
        let long = b.drop_named(b"Abcdefghijklmnopq");
        assert_eq!(rt; b.close(), 1);
        assert_eq!(rt; first, Ok(()));
        assert_eq!(rt; other, Ok(()));
        assert_eq!(rt; again, Ok(()));
        assert_eq!(rt; gone, Ok(()));
        assert_eq!(rt; twice, Err((8, None, Some(b'A'))));
        assert_eq!(rt; long, Err((8, None, None)));
        Ok(())
    }

    #[test]
    fn questions_about_the_text_are_asked_in_order(rt: HostRuntime) -> Result<(), Fail> {
        let mut b = Bench::new(rt.alloc())?;
        let long = [b' '; 4001];
        let length = b.put(&long);
        let syntax = b.put(b"module U = struct let end");
        let again = b.put(b"module U = struct type t = int type t = u end");
        let missing = b.put(b"module U = struct type t = u end");
        assert_eq!(rt; b.close(), 0);
        assert_eq!(rt; length, Err((2, None, None)));
        assert_eq!(rt; syntax, Err((3, Some(22), None)));
        assert_eq!(rt; again, Err((5, Some(36), None)));
        assert_eq!(rt; missing, Err((6, Some(27), None)));
        Ok(())
    }

    #[test]
    fn the_order_is_by_rank_then_name_behind_what_is_named(rt: HostRuntime) -> Result<(), Fail> {
        let mut b = Bench::new(rt.alloc())?;
        // Setting up, here and below: what is ordered shows that it was put.
        let _ = b.put(b"module A = struct module X = C end");
        let lacking = b.ordered(0);
        let _ = b.put(b"module B = struct end");
        let _ = b.put(b"module C = struct end");
        let same = (b.ordered(0), b.ordered(1), b.ordered(2));
        let _ = b.put(b"module C = struct end [@@ rank 50 ]");
        let ranked = (b.ordered(0), b.ordered(1), b.ordered(2));
        let _ = b.put(b"module C = struct module Y = A end");
        let circle = b.ordered(0);
        let _ = b.put(b"module C = struct module Y = D end");
        let both = b.ordered(0);
        assert_eq!(rt; b.close(), 3);
        assert_eq!(rt; lacking, Err((10, Some(29), Some(b'A'))));
        assert_eq!(rt; same.0, Ok(Some(b'B')));
        assert_eq!(rt; same.1, Ok(Some(b'C')));
        assert_eq!(rt; same.2, Ok(Some(b'A')));
        assert_eq!(rt; ranked.0, Ok(Some(b'C')));
        assert_eq!(rt; ranked.1, Ok(Some(b'A')));
        assert_eq!(rt; ranked.2, Ok(Some(b'B')));
        assert_eq!(rt; circle, Err((11, None, Some(b'A'))));
        assert_eq!(rt; both, Err((10, Some(29), Some(b'C'))));
        Ok(())
    }

    #[test]
    fn a_unit_that_names_itself_is_a_circle(rt: HostRuntime) -> Result<(), Fail> {
        let mut b = Bench::new(rt.alloc())?;
        let _ = b.put(b"module Z = struct module M = Z end");
        let _ = b.put(b"module A = struct module M = Z end");
        let circle = b.ordered(0);
        assert_eq!(rt; b.close(), 2);
        assert_eq!(rt; circle, Err((11, None, Some(b'Z'))));
        Ok(())
    }

    #[test]
    fn a_store_takes_sixteen_units(rt: HostRuntime) -> Result<(), Fail> {
        let mut b = Bench::new(rt.alloc())?;
        for letter in b'A'..=b'P' {
            let mut text = *b"module A = struct end";
            text[7] = letter;
            let _ = b.put(&text);
        }
        let seventeenth = b.put(b"module Q = struct end");
        let replaced = b.put(b"module C = struct let x = 1 end");
        assert_eq!(rt; b.close(), 16);
        assert_eq!(rt; seventeenth, Err((7, None, None)));
        assert_eq!(rt; replaced, Ok(()));
        Ok(())
    }

    #[test]
    fn other_lengths_are_refused_and_any_store_is_safe(rt: HostRuntime) -> Result<(), Fail> {
        let heap = rt.alloc();
        let mut short = vec![in heap; 0u8; 5]?;
        let mut book = vec![in heap; 0u32; BOOK_WORDS]?;
        let opened = open(&mut short, &mut book);
        assert_eq!(rt;
            opened.map(|project| project.close()).map_err(told),
            Err((1, None, None))
        );
        let mut b = Bench::new(heap)?;
        b.store.fill(255);
        let foreign = b.ordered(0);
        let stored = b.put(b"module A = struct end");
        let lengths = b.project.drop(&mut short, &book, b"A").map_err(told);
        assert_eq!(rt; b.close(), 1);
        assert_eq!(rt; foreign, Ok(None));
        assert_eq!(rt; stored, Ok(()));
        assert_eq!(rt; lengths, Err((1, None, Some(b'A'))));
        Ok(())
    }
}
