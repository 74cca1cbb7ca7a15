// Samples: names as numbers, and units in a store.
use super::layout::{WrongLength, read};
use super::name::{name_number, name_size};
use super::units::{Refusal, clear, name_of, put, remove};
use std::test::Fail;

// Puts a text of which the first byte is the name.
fn put_short(store: &mut [u8], text: &[u8]) -> Result<usize, Refusal> {
    put(store, text, 0, 1, 100)
}

// The place of the name of the k-th unit, and its first byte.
fn told(store: &[u8], k: usize) -> Option<(usize, u8)> {
    let (name, at) = name_of(store, k)?;
    let first = *name.first()?;
    Some((at, first))
}

#[test]
fn names_are_ordered_numbers(rt: HostRuntime) -> Result<(), Fail> {
    let a = name_number(b"A").ok_or("A")?;
    let aa = name_number(b"AA").ok_or("AA")?;
    let b = name_number(b"B").ok_or("B")?;
    assert!(rt; a == 65 << 120);
    assert!(rt; a < aa && aa < b);
    assert_eq!(rt; name_size(aa), 2);
    assert_eq!(rt; name_number(b""), None);
    assert_eq!(rt; name_number(b"A\0"), None);
    assert_eq!(rt; name_number(b"ABCDEFGHIJKLMNOPQ"), None);
    Ok(())
}

#[test]
fn units_are_put_replaced_and_removed(rt: HostRuntime) -> Result<(), Fail> {
    let mut memory = vec![in rt.alloc(); 255; 65536]?;
    let store = memory.as_mut_slice();
    assert_eq!(rt; read(store).len(), 0);
    assert_eq!(rt; clear(store), Ok(()));
    for letter in b'A'..=b'P' {
        put_short(store, &[letter, b'.'])?;
    }
    assert_eq!(rt; put_short(store, b"Q."), Err(Refusal::Full));
    assert_eq!(rt; put_short(store, b"C, again"), Ok(2));
    assert_eq!(rt; remove(store, 65 << 120), Ok(0));
    assert_eq!(rt; read(store).len(), 15);
    assert_eq!(rt; told(store, 0), Some((1536, b'P')));
    assert_eq!(rt; told(store, 15), None);
    assert_eq!(rt; remove(store, 65 << 120), Err(Refusal::Missing));
    assert_eq!(rt; put(store, b"module Q", 8, 1, 0), Err(Refusal::NoName));
    Ok(())
}

#[test]
fn other_lengths_are_refused(rt: HostRuntime) {
    let mut store = [0; 100];
    assert_eq!(rt; clear(&mut store), Err(WrongLength));
    assert_eq!(rt; put_short(&mut store, b"A."), Err(Refusal::StoreLength));
    assert_eq!(rt; read(&store).len(), 0);
}
