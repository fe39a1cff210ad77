// Copies of the operations and queries of each kind.
use branch_script::{Line, Step, read_line};
use std::test::Fail;

#[test]
fn each_kind_is_copied(rt: HostRuntime) -> Result<(), Fail> {
    let rows: [&[u8]; 26] = [
        b"do a counter k add 1",
        b"do a counter k reset",
        b"do a flag k enable",
        b"do a flag k disable",
        b"do a lww k set w",
        b"do a multi k set w",
        b"do a set k add w",
        b"do a set k remove w",
        b"do a set k clear",
        b"do a log k append w",
        b"do a queue k enqueue w",
        b"do a queue k dequeue",
        b"ask main counter k value",
        b"ask main flag k on",
        b"ask main lww k get",
        b"ask main multi k values",
        b"ask main set k contains w",
        b"ask main set k members",
        b"ask main set k size",
        b"ask main log k read",
        b"ask main log k length",
        b"ask main queue k peek",
        b"ask main queue k items",
        b"ask main queue k length",
        b"ask main queue keys",
        b"ask #1 set k contains w",
    ];
    for line in rows.iter() {
        match read_line(rt.alloc(), line)? {
            Some(Line::Step(Step::Do { op, .. })) => assert!(rt; op.copy().is_ok()),
            Some(Line::Step(Step::Ask { query, .. })) => assert!(rt; query.copy().is_ok()),
            Some(Line::AskAt { query, .. }) => assert!(rt; query.copy().is_ok()),
            _ => panic!(rt; "neither an operation nor a query"),
        }
    }
    Ok(())
}
