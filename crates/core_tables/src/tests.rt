// Bad input, and what is written and left.
use cores::interface::{Core, Operation, Refusal};
use cores::lines::Position;
use cores::mini_ml::MiniMl;

const INT: u32 = 0x4000_0000;

const ARROW: u32 = 0xC000_0002;

#[test]
fn refusals_leave_the_result_slice(rt: HostRuntime) {
    let mut out = [9; 3];
    assert_eq!(rt;
        MiniMl.answer(Operation::Operator(4), &[INT, ARROW, INT], &mut out),
        Err(Refusal::Arguments),
        "an arrow without its second part"
    );
    assert_eq!(rt;
        MiniMl.answer(Operation::Operator(2), &[], &mut out),
        Err(Refusal::Cause(Position { number: 1 })),
        "a label"
    );
    assert_eq!(rt;
        MiniMl.answer(Operation::Operator(7), &[INT], &mut out),
        Err(Refusal::Cause(Position { number: 1 })),
        "no word"
    );
    assert_eq!(rt;
        MiniMl.answer(Operation::Function, &[INT, INT], &mut out[0..2]),
        Err(Refusal::Short),
        "two words for three"
    );
    assert_eq!(rt; out, [9; 3]);
}

#[test]
fn a_result_is_written_to_the_front(rt: HostRuntime) {
    let mut out = [9; 4];
    assert_eq!(rt;
        MiniMl.answer(Operation::Function, &[INT, 5], &mut out),
        Ok(3)
    );
    assert_eq!(rt; out, [ARROW, INT, 5, 9]);
}
