// Unit texts through the reader. All of this crate is tests.
#![tactic(auto)]

#[cfg(test)]
mod tests {
    use cores::interface::Core;
    use cores::mini_c::MiniC;
    use cores::mini_ml::MiniMl;
    use reader::fault::ReadFault;
    use reader::read::{
        SCRATCH_WORDS, Start, head_name, heads_of, mentioned_unit, read_signature, read_unit,
    };
    use std::test::Fail;

    // The number of the question that a text answers with no, and the place, where it is about one.
    // By numbers, so that number and place are tested too.
    type Refused = (u8, Option<usize>);

    fn refused(fault: ReadFault) -> Refused {
        (fault.number(), fault.place())
    }

    // The rank of a unit that reads, or its refusal.
    fn told<C: Core>(core: &C, text: &[u8], scratch: &mut [u32]) -> Result<u8, Refused> {
        let heading = read_unit(core, text, scratch).map_err(refused)?;
        Ok(heading.rank)
    }

    // The same of a signature, which has no rank.
    fn told_signature<C: Core>(core: &C, text: &[u8], scratch: &mut [u32]) -> Result<(), Refused> {
        read_signature(core, text, scratch).map_err(refused)
    }

    // The place of the first head, from a place on, that names a unit.
    fn named<C: Core>(core: &C, text: &[u8], scratch: &mut [u32], from: usize) -> Option<usize> {
        let (_, place) = mentioned_unit(core, text, scratch, from).ok()??;
        Some(place)
    }

    // How many heads name units, with the place of one of them and the first byte of its name.
    type Listed = (usize, Option<usize>, Option<u8>);

    // That of a text over the first core, or its refusal.
    fn heads(text: &[u8], scratch: &mut [u32], start: Start, i: usize) -> Result<Listed, Refused> {
        let places = heads_of(&MiniMl, text, scratch, start).map_err(refused)?;
        let place = places.get(i).map(|place| *place as usize);
        let name = place.and_then(|place| head_name(text, place));
        Ok((
            places.len(),
            place,
            name.and_then(|name| name.first().copied()),
        ))
    }

    #[test]
    fn units_and_ranks(rt: HostRuntime) -> Result<(), Fail> {
        let mut words = vec![in rt.alloc(); 0u32; SCRATCH_WORDS]?;
        let scratch = words.as_mut_slice();
        assert_eq!(rt; told(&MiniMl, b"module U = struct end", scratch), Ok(100));
        assert_eq!(rt;
            told(&MiniMl, b"module U=struct end[@@rank 007]", scratch),
            Ok(7)
        );
        assert_eq!(rt;
            told(&MiniMl, b"module U = struct end [@@ rank 256 ]", scratch),
            Err((3, Some(31)))
        );
        assert_eq!(rt;
            told(&MiniMl, b"module U = struct end end", scratch),
            Err((3, Some(22)))
        );
        assert_eq!(rt;
            told(&MiniMl, b"module U = struct", scratch),
            Err((3, Some(17)))
        );
        assert_eq!(rt; told(&MiniMl, b"", scratch), Err((3, Some(0))));
        assert_eq!(rt;
            told(&MiniMl, b"module U = struct end", &mut []),
            Err((1, None))
        );
        assert_eq!(rt; told(&MiniMl, &[b'('; 4001], scratch), Err((2, None)));
        assert_eq!(rt; told(&MiniMl, &[b'('; 4000], scratch), Err((3, Some(0))));
        Ok(())
    }

    #[test]
    fn words_of_a_core(rt: HostRuntime) -> Result<(), Fail> {
        let mut words = vec![in rt.alloc(); 0u32; SCRATCH_WORDS]?;
        let scratch = words.as_mut_slice();
        assert_eq!(rt;
            told(&MiniMl, b"module U = struct let add = 1 end", scratch),
            Err((3, Some(22)))
        );
        assert_eq!(rt;
            told(&MiniC, b"module U = struct let add = 1 end", scratch),
            Ok(100)
        );
        assert_eq!(rt;
            told_signature(&MiniC, b"sig val x : int ptr ptr end", scratch),
            Ok(())
        );
        assert_eq!(rt;
            told_signature(&MiniMl, b"sig val x : (int, bool) end", scratch),
            Err((3, Some(24)))
        );
        Ok(())
    }

    #[test]
    fn static_questions(rt: HostRuntime) -> Result<(), Fail> {
        let mut words = vec![in rt.alloc(); 0u32; SCRATCH_WORDS]?;
        let scratch = words.as_mut_slice();
        assert_eq!(rt;
            told(
                &MiniMl,
                b"module U = struct let x = (((((((((((1))))))))))) end",
                scratch
            ),
            Ok(100)
        );
        assert_eq!(rt;
            told(
                &MiniMl,
                b"module U = struct let x = ((((((((((((1)))))))))))) end",
                scratch
            ),
            Err((4, Some(37)))
        );
        assert_eq!(rt;
            told(
                &MiniMl,
                b"module U = struct let x = 1 let x = 2 end",
                scratch
            ),
            Err((5, Some(32)))
        );
        assert_eq!(rt;
            told(
                &MiniMl,
                b"module U = struct type x = int let x = 2 end",
                scratch
            ),
            Ok(100)
        );
        assert_eq!(rt;
            told(&MiniMl, b"module U = struct let x = x end", scratch),
            Err((6, Some(26)))
        );
        assert_eq!(rt;
            named(&MiniMl, b"module B = struct let y = A.x end", scratch, 0),
            Some(26)
        );
        assert_eq!(rt;
            named(&MiniMl, b"module B = struct let y = A.x end", scratch, 27),
            None
        );
        Ok(())
    }

    #[test]
    fn twelve_may_be_open_in_each_way(rt: HostRuntime) -> Result<(), Fail> {
        let mut words = vec![in rt.alloc(); 0u32; SCRATCH_WORDS]?;
        let scratch = words.as_mut_slice();
        // the unit's own `struct` is the first; each text has 12 open, and one more bracket or keyword makes 13
        assert_eq!(rt;
            told(
                &MiniMl,
                b"module U=struct type t=(((((((((((int))))))))))) end",
                scratch
            ),
            Ok(100)
        );
        assert_eq!(rt;
            told(
                &MiniMl,
                b"module U=struct type t=((((((((((((int)))))))))))) end",
                scratch
            ),
            Err((4, Some(34)))
        );
        assert_eq!(rt;
            told(
                &MiniMl,
                b"module U=struct module A=(((((((((((struct end))))))))))) end",
                scratch
            ),
            Err((4, Some(36)))
        );
        assert_eq!(rt;
            told(
                &MiniMl,
                b"module U=struct module A=((((((((((struct end)))))))))) end",
                scratch
            ),
            Ok(100)
        );
        assert_eq!(rt;
            told(
                &MiniMl,
                b"module U=struct let f=fun(a:int)->fun(b:int)->fun(c:int)->fun(d:int)->fun(e:int)->fun(g:int)->fun(h:int)->fun(i:int)->fun(j:int)->fun(k:int)->1 end",
                scratch
            ),
            Ok(100)
        );
        assert_eq!(rt;
            told(
                &MiniMl,
                b"module U=struct let f=fun(a:int)->fun(b:int)->fun(c:int)->fun(d:int)->fun(e:int)->fun(g:int)->fun(h:int)->fun(i:int)->fun(j:int)->fun(k:int)->fun(l:int)->1 end",
                scratch
            ),
            Err((4, Some(145)))
        );
        assert_eq!(rt;
            told_signature(
                &MiniMl,
                b"sig module A:sig module A:sig module A:sig module A:sig module A:sig module A:functor(X:sig end)->functor(X:sig end)->functor(X:sig end)->functor(X:sig end)->sig end end end end end end end",
                scratch
            ),
            Ok(())
        );
        assert_eq!(rt;
            told_signature(
                &MiniMl,
                b"sig module A:sig module A:sig module A:sig module A:sig module A:sig module A:functor(X:sig end)->functor(X:sig end)->functor(X:sig end)->functor(X:sig end)->functor(X:sig end)->sig end end end end end end end",
                scratch
            ),
            Err((4, Some(168)))
        );
        Ok(())
    }

    #[test]
    fn heads_that_name_units(rt: HostRuntime) -> Result<(), Fail> {
        let mut words = vec![in rt.alloc(); 0u32; SCRATCH_WORDS]?;
        let scratch = words.as_mut_slice();
        assert_eq!(rt;
            heads(
                b"module U = struct let x = 1 let y = x end",
                scratch,
                Start::Unit,
                0
            ),
            Ok((0, None, None))
        );
        assert_eq!(rt;
            heads(
                b"module U = struct let y = A.x module M = F(G)(A.N) end",
                scratch,
                Start::Unit,
                0
            ),
            Ok((4, Some(26), Some(b'A')))
        );
        assert_eq!(rt;
            heads(
                b"module U = struct let y = A.x module M = F(G)(A.N) end",
                scratch,
                Start::Unit,
                1
            ),
            Ok((4, Some(41), Some(b'F')))
        );
        assert_eq!(rt;
            heads(
                b"module U = struct let y = A.x module M = F(G)(A.N) end",
                scratch,
                Start::Unit,
                2
            ),
            Ok((4, Some(43), Some(b'G')))
        );
        assert_eq!(rt;
            heads(
                b"module U = struct let y = A.x module M = F(G)(A.N) end",
                scratch,
                Start::Unit,
                3
            ),
            Ok((4, Some(46), Some(b'A')))
        );
        assert_eq!(rt;
            heads(
                b"module U = struct let y = A.x module M = F(G)(A.N) end",
                scratch,
                Start::Unit,
                4
            ),
            Ok((4, None, None))
        );
        assert_eq!(rt;
            heads(
                b"module U = struct let x = 1 let y = U.x end",
                scratch,
                Start::Unit,
                0
            ),
            Ok((1, Some(36), Some(b'U')))
        );
        assert_eq!(rt;
            heads(
                b"module U = struct let x = y let z = A.x end",
                scratch,
                Start::Unit,
                0
            ),
            Ok((1, Some(36), Some(b'A')))
        );
        Ok(())
    }

    #[test]
    fn heads_declared_around(rt: HostRuntime) -> Result<(), Fail> {
        let mut words = vec![in rt.alloc(); 0u32; SCRATCH_WORDS]?;
        let scratch = words.as_mut_slice();
        assert_eq!(rt;
            heads(
                b"module U = struct let y = A.x module A = struct let x = 1 end let z = A.x end",
                scratch,
                Start::Unit,
                0
            ),
            Ok((1, Some(26), Some(b'A')))
        );
        assert_eq!(rt;
            heads(
                b"module U = struct module A = A end",
                scratch,
                Start::Unit,
                0
            ),
            Ok((1, Some(29), Some(b'A')))
        );
        assert_eq!(rt;
            heads(
                b"module U = struct module F = functor (X : sig val v : int end) -> struct let y = X.v end module M = X end",
                scratch,
                Start::Unit,
                0
            ),
            Ok((1, Some(100), Some(b'X')))
        );
        assert_eq!(rt;
            heads(
                b"module U = struct module F = functor (X : sig val v : X.t end) -> X end",
                scratch,
                Start::Unit,
                0
            ),
            Ok((1, Some(54), Some(b'X')))
        );
        Ok(())
    }

    #[test]
    fn heads_in_signatures_and_types(rt: HostRuntime) -> Result<(), Fail> {
        let mut words = vec![in rt.alloc(); 0u32; SCRATCH_WORDS]?;
        let scratch = words.as_mut_slice();
        assert_eq!(rt;
            heads(
                b"module U = struct module M = (N : sig type t = A.t val v : B.t end) type u = C.t end",
                scratch,
                Start::Unit,
                1
            ),
            Ok((4, Some(47), Some(b'A')))
        );
        assert_eq!(rt;
            heads(
                b"module U = struct module M = (N : sig type t = A.t val v : B.t end) type u = C.t end",
                scratch,
                Start::Unit,
                2
            ),
            Ok((4, Some(59), Some(b'B')))
        );
        assert_eq!(rt;
            heads(
                b"module U = struct module M = (N : sig type t = A.t val v : B.t end) type u = C.t end",
                scratch,
                Start::Unit,
                3
            ),
            Ok((4, Some(77), Some(b'C')))
        );
        assert_eq!(rt;
            heads(
                b"sig module M : sig val v : A.t end val w : M.t end",
                scratch,
                Start::Signature,
                0
            ),
            Ok((1, Some(27), Some(b'A')))
        );
        assert_eq!(rt;
            heads(
                b"functor (X : sig end) -> sig val v : X.t val w : Y.t end",
                scratch,
                Start::Signature,
                0
            ),
            Ok((1, Some(49), Some(b'Y')))
        );
        Ok(())
    }

    #[test]
    fn heads_refused(rt: HostRuntime) -> Result<(), Fail> {
        let mut words = vec![in rt.alloc(); 0u32; SCRATCH_WORDS]?;
        let scratch = words.as_mut_slice();
        assert_eq!(rt;
            heads(b"module U = struct end", &mut [], Start::Unit, 0),
            Err((1, None))
        );
        assert_eq!(rt;
            heads(&[b'('; 4001], scratch, Start::Unit, 0),
            Err((2, None))
        );
        assert_eq!(rt;
            heads(b"module U = struct A end", scratch, Start::Unit, 0),
            Err((3, Some(18)))
        );
        Ok(())
    }
}
