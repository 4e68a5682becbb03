//! Computing in each of the prime fields.

use alg_core::Field;
use prime_field::PrimeField;
use std::process::Abort;
use std::test::Fail;
use test_inputs::field;

fn examine<F: Field<Elem = u16>>(rt: &impl Abort, field: &F, p: u16) {
    assert_eq!(rt; field.size(), u32::from(p));
    assert_eq!(rt; field.characteristic(), u32::from(p));
    for a in 0..p {
        examine_element(rt, field, p, a);
    }
    assert!(rt; !field.has(p), "{p} in GF({p})");
}

fn examine_element<F: Field<Elem = u16>>(rt: &impl Abort, field: &F, p: u16, a: u16) {
    let is_in_field = field.has(a);
    assert!(rt; is_in_field, "{a} in GF({p})");
    let number = field.number(a);
    assert_eq!(rt; number, u32::from(a));
    let is_number = number < field.size();
    assert!(rt; is_number);
    assert_eq!(rt; field.of_number(number), a);
    let opposite = field.neg(a);
    assert_eq!(rt; opposite, if a == 0 { 0 } else { p.wrapping_sub(a) });
    assert_eq!(rt; field.add(a, opposite), field.zero());
    let next = a.wrapping_add(1);
    assert_eq!(rt; field.add(a, field.one()), if next == p { 0 } else { next });
    match field.inv(a) {
        Some(b) => assert_eq!(rt; field.mul(a, b), 1, "{a} times {b} in GF({p})"),
        None => assert_eq!(rt; a, 0),
    }
}

#[test]
fn computes_in_each_field(rt: HostRuntime) -> Result<(), Fail> {
    for p in [2, 3, 5, 7, 11, 257, 32003] {
        let field = field(u32::from(p))?;
        examine(&rt, &field, p);
    }
    for p in [0, 1, 4, 13, 65536 + 7, u32::MAX] {
        assert!(rt; PrimeField::new(p).is_err(), "{p} is not listed");
    }
    Ok(())
}
