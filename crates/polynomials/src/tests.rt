// The calls on examples.
use crate::divide::*;
use crate::evaluate::*;
use crate::gcd::*;
use coefficients::residues::*;
use std::test::Fail;

#[test]
fn refusals_name_what_came_in(rt: HostRuntime) -> Result<(), Fail> {
    let k = Residues::new(11)?;
    assert_eq!(rt; evaluate(&k, &[1, 2, 3], 5), Ok(9));
    assert_eq!(rt;
        evaluate(&k, &[1, 11, 3], 5).map_err(|e| e.number()),
        Err(2)
    );
    let mut a = [1, 1];
    let mut b = [1, 1, 0];
    assert_eq!(rt; gcd(&k, &mut a, &mut b).map_err(|e| e.number()), Err(1));
    let mut rest = [1, 2];
    let mut quotient = [0, 0];
    assert_eq!(rt;
        divide(&k, &mut rest, &[0, 0], &mut quotient).map_err(|e| e.number()),
        Err(5)
    );
    Ok(())
}
