use branch_objects_codec::{Action, Object, put_value};
use mrdt_model::{Bytes, Listing, Memory, Unread};
use std::alloc::Global;

// The value `ab`.
const VALUE: &[u8] = b"\x01\x00\x00\x00\x00\x00\x00\x00\x02ab";

// The root commit, with the value at the address of 32 letters `v`.
const ROOT: &[u8] = b"\
\x02\x00\x00\x00\x00\x00\x00\x00\x35\
\x00\x00\x00\x00\x00\x00\x00\x00\
\x00\x00\x00\x00\
\x00\x00\x00\x00\x00\x00\x00\x00\
vvvvvvvvvvvvvvvvvvvvvvvvvvvvvvvv\
\x00";

// On branch 3 and at clock 258, above `p`, the operation `op` that replied `r`.
const OPERATION: &[u8] = b"\
\x02\x00\x00\x00\x00\x00\x00\x00\x68\
\x00\x00\x00\x00\x00\x00\x00\x01\
pppppppppppppppppppppppppppppppp\
\x00\x00\x00\x03\
\x00\x00\x00\x00\x00\x00\x01\x02\
vvvvvvvvvvvvvvvvvvvvvvvvvvvvvvvv\
\x01\
\x00\x00\x00\x00\x00\x00\x00\x02op\
\x00\x00\x00\x00\x00\x00\x00\x01r";

// On branch 1 and at clock 2, the merge of `p` and `q`.
const MERGE: &[u8] = b"\
\x02\x00\x00\x00\x00\x00\x00\x00\x75\
\x00\x00\x00\x00\x00\x00\x00\x02\
pppppppppppppppppppppppppppppppp\
qqqqqqqqqqqqqqqqqqqqqqqqqqqqqqqq\
\x00\x00\x00\x01\
\x00\x00\x00\x00\x00\x00\x00\x02\
vvvvvvvvvvvvvvvvvvvvvvvvvvvvvvvv\
\x02";

fn commit(
    alloc: Global,
    parents: &[[u8; 32]],
    branch: u32,
    clock: u64,
    action: Action,
) -> Result<Object, Memory> {
    Ok(Object::Commit {
        parents: Listing::from_vec(Vec::from_slice(alloc, parents)?),
        branch,
        clock,
        value: Some([b'v'; 32]),
        action,
    })
}

fn root(alloc: Global) -> Result<Object, Memory> {
    commit(alloc, &[], 0, 0, Action::Root)
}

fn operation(alloc: Global, op: &[u8], reply: &[u8]) -> Result<Object, Memory> {
    let action = Action::Operation {
        op: Bytes::from_slice(alloc, op)?,
        reply: Bytes::from_slice(alloc, reply)?,
    };
    commit(alloc, &[[b'p'; 32]], 3, 258, action)
}

fn merge(alloc: Global) -> Result<Object, Memory> {
    commit(alloc, &[[b'p'; 32], [b'q'; 32]], 1, 2, Action::Merge)
}

fn value(alloc: Global, bytes: &[u8]) -> Result<Object, Memory> {
    Ok(Object::Value(Bytes::from_slice(alloc, bytes)?))
}

fn spelled(alloc: Global, object: &Object) -> Result<Vec<u8>, Memory> {
    let mut out = Vec::new(alloc);
    object.put(&mut out)?;
    Ok(out)
}

// The bytes, read as an object and spelled again.
fn again(alloc: Global, bytes: &[u8]) -> Result<Vec<u8>, Unread> {
    Ok(spelled(alloc, &Object::get(alloc, bytes)?)?)
}

#[test]
fn objects_are_spelled(rt: HostRuntime) {
    let alloc = rt.alloc();
    let text = spelled(alloc, &value(alloc, b"ab").expect(&rt, "a value")).expect(&rt, "bytes");
    assert!(rt; text.as_slice() == VALUE);
    let mut text = Vec::new(alloc);
    put_value(b"ab", &mut text).expect(&rt, "bytes");
    assert!(rt; text.as_slice() == VALUE);
    let text = spelled(alloc, &root(alloc).expect(&rt, "a root")).expect(&rt, "bytes");
    assert!(rt; text.as_slice() == ROOT);
    let object = operation(alloc, b"op", b"r").expect(&rt, "an operation");
    let text = spelled(alloc, &object).expect(&rt, "bytes");
    assert!(rt; text.as_slice() == OPERATION);
    let text = spelled(alloc, &merge(alloc).expect(&rt, "a merge")).expect(&rt, "bytes");
    assert!(rt; text.as_slice() == MERGE);
}

#[test]
fn objects_are_read(rt: HostRuntime) {
    let alloc = rt.alloc();
    for bytes in [VALUE, ROOT, OPERATION, MERGE] {
        assert!(rt; again(alloc, bytes).expect(&rt, "an object").as_slice() == bytes);
    }
    let object = Object::get(alloc, OPERATION).expect(&rt, "an operation");
    let Object::Commit {
        parents,
        branch,
        clock,
        value,
        action: Action::Operation { op, reply },
    } = &object
    else {
        assert!(rt; false, "an operation");
        return;
    };
    assert!(rt; parents.as_slice() == [[b'p'; 32]].as_slice());
    assert!(rt; *branch == 3 && *clock == 258 && *value == Some([b'v'; 32]));
    assert!(rt; op.as_slice() == b"op".as_slice() && reply.as_slice() == b"r".as_slice());
}
