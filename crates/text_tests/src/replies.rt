// The text of a bundle that is refused for a collision, which no case of `run_cases` meets.
use branch_print::sent::put_refused_collision;
use std::test::Fail;

#[test]
fn a_collision_is_told(rt: HostRuntime) -> Result<(), Fail> {
    let mut address = [0; 32];
    address[30] = 10;
    address[31] = 129;
    let mut out = Vec::new(rt.alloc());
    put_refused_collision(&mut out, &address)?;
    let text =
        b"refused collision 0000000000000000000000000000000000000000000000000000000000000a81\n";
    assert!(rt; out.as_slice() == text.as_slice());
    Ok(())
}
