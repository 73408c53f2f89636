// The sources on examples.
use crate::chain::*;
use crate::counting::*;
use crate::pile::*;
use crate::shift::*;
use crate::source::*;
use crate::supplied::*;
use coefficients::residues::*;
use std::test::Fail;

#[test]
fn a_pile_shifts_the_list_and_then_all_elements(rt: HostRuntime) -> Result<(), Fail> {
    let k = Residues::new(11)?;
    let mut pile = standard_pile(k, 3, &[8, 9, 20]);
    assert_eq!(rt; pile.draw(), Some(0));
    assert_eq!(rt; pile.draw(), Some(1));
    assert_eq!(rt; pile.draw(), Some(20));
    assert_eq!(rt; pile.draw(), Some(3));
    assert!(rt; pile.any_waiting());
    Ok(())
}
