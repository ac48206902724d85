//! Amounts as texts: what is refused, and why.
use amounts::*;
use std::test::Fail;
use test_rows::holds;

// What is wrong with a text that is no amount.
const NO_AMOUNTS: [(&str, AmountFault); 4] = [
    ("-0.00", AmountFault::Shape),
    ("00.00", AmountFault::Shape),
    ("1.0", AmountFault::Shape),
    ("100000000000.00", AmountFault::Range),
];

#[test]
fn a_fault_of_an_amount_is_named() -> Result<(), Fail> {
    for (text, fault) in &NO_AMOUNTS {
        holds(read_cents(text).err() == Some(*fault), text)?;
    }
    Ok(())
}
