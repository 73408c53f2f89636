// Published vectors for bytes, and the refusals.
use crate::bytes::*;
use crate::kind::*;
use crate::listed::*;
use crate::residues::*;
use rules::refusal::Refusal;
use std::test::Fail;

#[test]
fn bytes_add_and_multiply_as_published(rt: HostRuntime) {
    let k = Bytes::new();
    assert_eq!(rt; k.add(0x57, 0x83), 0xd4);
    assert_eq!(rt; k.sub(0xd4, 0x83), 0x57);
    assert_eq!(rt; k.mul(0x57, 0x83), 0xc1);
    assert_eq!(rt; k.mul(0x57, 0x13), 0xfe);
    assert_eq!(rt; k.mul(0x57, 0x02), 0xae);
    assert_eq!(rt; k.mul(0x57, 0x04), 0x47);
    assert_eq!(rt; k.mul(0x57, 0x08), 0x8e);
    assert_eq!(rt; k.mul(0x57, 0x10), 0x07);
}

// The answer of a call for a reciprocal, or the number of its refusal.
fn answer(r: Result<u64, ReciprocalFault>) -> Result<u64, u64> {
    r.map_err(|e| Refusal::from(e).number())
}

#[test]
fn reciprocals_are_given_or_refused(rt: HostRuntime) -> Result<(), Fail> {
    let bytes = Bytes::new();
    assert_eq!(rt; answer(bytes.reciprocal(0x53)), Ok(0xca));
    assert_eq!(rt; answer(bytes.reciprocal(0)), Err(5));
    assert_eq!(rt; answer(bytes.reciprocal(256)), Err(2));
    let fifteen = Residues::new(15)?;
    assert_eq!(rt; answer(fifteen.reciprocal(2)), Ok(8));
    assert_eq!(rt; answer(fifteen.reciprocal(5)), Err(5));
    assert_eq!(rt; answer(fifteen.reciprocal(15)), Err(2));
    assert_eq!(rt; fifteen.mul(15, 1), 0);
    assert_eq!(rt; fifteen.nth(14), Some(14));
    assert_eq!(rt; fifteen.nth(15), None);
    Ok(())
}

// The number of the refusal of a modulus that is not taken.
fn refusal(modulus: u64) -> Option<u64> {
    Residues::new(modulus)
        .err()
        .map(|e| Refusal::from(e).number())
}

#[test]
fn moduli_from_2_to_2147483647_are_taken(rt: HostRuntime) {
    assert_eq!(rt; refusal(0), Some(4));
    assert_eq!(rt; refusal(1), Some(4));
    assert_eq!(rt; refusal(2), None);
    assert_eq!(rt; refusal(2147483647), None);
    assert_eq!(rt; refusal(2147483648), Some(4));
}
