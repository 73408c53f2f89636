// Content on an example.
use crate::rows::Rows;
use coefficients::residues::*;
use std::test::Fail;

// (y + 1) (x + 2) modulo 11.
#[test]
fn content_splits_off(rt: HostRuntime) -> Result<(), Fail> {
    let k = Residues::new(11)?;
    let mut rows = [0; 32];
    rows[0] = 2;
    rows[1] = 2;
    rows[2] = 1;
    rows[3] = 1;
    let mut shared = [0; 2];
    let mut part = [0; 32];
    let whole = Rows::new(&rows, 2);
    assert_eq!(rt; whole.size_x(&k), 2);
    assert_eq!(rt; whole.size_y(&k), 2);
    assert_eq!(rt; whole.take_content(&k, &mut shared, &mut part)?, 2);
    assert_eq!(rt; shared[0], 1);
    assert_eq!(rt; shared[1], 1);
    assert_eq!(rt; part[0], 2);
    assert_eq!(rt; part[2], 1);
    assert_eq!(rt; Rows::new(&part, 2).size_y(&k), 1);
    Ok(())
}
