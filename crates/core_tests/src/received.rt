// Commits that another store sent.
use crate::stores::{Numbered, add, fresh, number_of, terms_from};
use branch_address::{Address, Sha256Address};
use branch_names::Name;
use mrdt_counter::Sum;
use std::alloc::Global;
use std::process::Abort;
use std::test::Fail;
use store_core::{Bundle, Got, ReceiveRefused};

// The device calls that make a store, those that receive a commit whose objects are new, and those that place a branch.
const MADE: u64 = 10;

const RECEIVED: u64 = 6;

const PLACED: u64 = 4;

// And those that receive commits together, but for a gate of each.
const TOGETHER: u64 = 5;

// The bundle of a commit of a store with such additions.
fn sent<T: Numbered, A: Address>(
    rt: &impl Abort,
    alloc: Global,
    amounts: &[u8],
    tip: u32,
) -> Bundle {
    let mut core = fresh::<T, A>(rt, alloc, Vec::new(alloc), terms_from(rt, 0));
    for amount in amounts {
        assert!(rt; add(rt, &mut core, *amount).has_landed());
    }
    assert!(rt; tip < core.commits());
    match core.bundle(tip, &[]) {
        Ok(bundle) => bundle,
        Err(_) => panic!(rt; "no bundle"),
    }
}

// A store receives an operation, and it is there then; a branch is placed at it.
fn receives<T: Numbered, A: Address>(rt: &impl Abort, alloc: Global) {
    let bundle = sent::<T, A>(rt, alloc, &[5], 1);
    let mut core = fresh::<T, A>(rt, alloc, Vec::new(alloc), terms_from(rt, 100));
    for item in bundle.items.as_slice() {
        let new = Got::New {
            commit: 1,
            moves: 1,
        };
        assert_eq!(rt; core.receive(item).expect(rt, "a commit"), new);
        let here = Got::Here { commit: 1 };
        assert_eq!(rt; core.receive(item).expect(rt, "a commit"), here);
    }
    assert_eq!(rt; core.commit_at(&bundle.tip), Some(1));
    assert!(rt; 1 < core.commits());
    let theirs = Name::read(b"theirs").expect(rt, "a name");
    assert!(rt; core.place(theirs, 1).is_ok());
    assert_eq!(rt; number_of(rt, &core, &theirs), 5);
    assert_eq!(rt; core.close().calls(), MADE + RECEIVED + PLACED);
}

// A store receives two operations together, the second one on the first; then the same two again, which are here. The
// second one alone has no parent in a new store.
fn receives_together<T: Numbered, A: Address>(rt: &impl Abort, alloc: Global) {
    let bundle = sent::<T, A>(rt, alloc, &[5, 6], 2);
    let items = bundle.items.as_slice();
    assert_eq!(rt; items.len(), 2);
    let mut core = fresh::<T, A>(rt, alloc, Vec::new(alloc), terms_from(rt, 100));
    let all = core.receive_all(items).expect(rt, "commits");
    let new = [
        Got::New {
            commit: 1,
            moves: 1,
        },
        Got::New {
            commit: 2,
            moves: 2,
        },
    ];
    assert_eq!(rt; all.got.as_slice(), new.as_slice());
    assert_eq!(rt; all.made, 2);
    assert!(rt; all.refused.is_none());
    let again = core.receive_all(items).expect(rt, "commits");
    let here = [Got::Here { commit: 1 }, Got::Here { commit: 2 }];
    assert_eq!(rt; again.got.as_slice(), here.as_slice());
    assert_eq!(rt; again.made, 0);
    assert_eq!(rt; core.close().calls(), MADE + TOGETHER + 2);
    let mut other = fresh::<T, A>(rt, alloc, Vec::new(alloc), terms_from(rt, 200));
    let none = other.receive_all(&items[1..]).expect(rt, "no commit");
    assert_eq!(rt; none.made, 0);
    assert!(rt; matches!(none.refused, Some(ReceiveRefused::BadBundle { item: 2 })));
}

#[test]
fn an_operation_is_received(rt: HostRuntime) -> Result<(), Fail> {
    receives::<Sum, Sha256Address>(&rt, rt.alloc());
    Ok(())
}

#[test]
fn two_operations_are_received_together(rt: HostRuntime) -> Result<(), Fail> {
    receives_together::<Sum, Sha256Address>(&rt, rt.alloc());
    Ok(())
}
