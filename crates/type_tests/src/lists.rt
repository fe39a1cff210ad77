// Lists whose versions share what they have in common.
use mrdt_model::Memory;
use shared_list::{Builder, Entry, SharedList, Walk, from_vec};
use std::alloc::Global;
use std::test::Fail;

// A number, which counts as much in both sums.
#[derive(Drop)]
struct Item {
    number: u8,
}

impl Entry for Item {
    ghost use Rattle.std.specs.Prelude.{pos};

    ghost weight_of = { λ i. i.number };

    ghost amount_of = { λ i. pos i.number };

    fn copy(&self) -> Result<Item, Memory> {
        Ok(Item {
            number: self.number,
        })
    }

    fn weight(&self) -> u64 {
        u64::from(self.number)
    }

    fn amount(&self) -> i128 {
        i128::from(self.number)
    }
}

// The numbers from 0 to 199.
fn two_hundred(alloc: Global) -> Result<SharedList<Item>, Memory> {
    let mut items = Vec::new(alloc);
    for number in 0..200 {
        items.push(Item { number })?;
    }
    from_vec(alloc, items)
}

// The entries of a list behind those of a builder.
fn taken_over(builder: Builder<Item>, list: &SharedList<Item>) -> Result<Builder<Item>, Memory> {
    let mut builder = builder;
    let mut place = 0;
    for _turn in 0..list.len() {
        if place < list.len() {
            let (longer, next) = builder.take_over(list, place)?;
            builder = longer;
            place = next;
        }
    }
    Ok(builder)
}

// A list three times, and then a number.
fn three_times(
    alloc: Global,
    list: &SharedList<Item>,
    number: u8,
) -> Result<SharedList<Item>, Memory> {
    let one = taken_over(Builder::new(alloc), list)?;
    let two = taken_over(one, list)?;
    let three = taken_over(two, list)?;
    three.push(Item { number })?.finish()
}

fn inserted(list: &SharedList<Item>, place: u64, number: u8) -> Result<SharedList<Item>, Memory> {
    if place <= list.len() {
        list.insert(place, Item { number })
    } else {
        Err(Memory)
    }
}

fn replaced(list: &SharedList<Item>, place: u64, number: u8) -> Result<SharedList<Item>, Memory> {
    if place < list.len() {
        list.replace(place, Item { number })
    } else {
        Err(Memory)
    }
}

fn removed(list: &SharedList<Item>, place: u64) -> Result<SharedList<Item>, Memory> {
    if place < list.len() {
        list.remove(place)
    } else {
        Err(Memory)
    }
}

// Whether so many entries have this sum, and at a place this number.
fn has(list: &SharedList<Item>, count: u64, sum: u64, place: u64, number: u8) -> bool {
    list.len() == count
        && list.weight() == sum
        && list.amount() == i128::from(sum)
        && place < count
        && list.get(place).number == number
}

// Where the sum of the weights passes this one.
fn found(list: &SharedList<Item>, weight: u64) -> u64 {
    let sum = list.weight();
    if sum < u64::MAX && weight < sum {
        list.find_by_weight(weight)
    } else {
        u64::MAX
    }
}

// Where the sum of the amounts passes this one.
fn reached(list: &SharedList<Item>, amount: i128) -> u64 {
    if 0 <= amount && amount < list.amount() {
        list.find_by_amount(amount)
    } else {
        u64::MAX
    }
}

// The numbers, by a walk.
fn numbers(alloc: Global, list: &SharedList<Item>) -> Result<Vec<u8>, Memory> {
    let mut out = Vec::new(alloc);
    let mut ahead = Walk::new(list, 0);
    for _turn in 0..list.len() {
        if let Some(item) = ahead.first() {
            out.push(item.number)?;
        }
        ahead.skip();
    }
    Ok(out)
}

#[test]
fn short_lists_are_edited(rt: HostRuntime) -> Result<(), Fail> {
    let alloc = rt.alloc();
    let one = SharedList::new(alloc).push(Item { number: 3 })?;
    let two = inserted(&one, 0, 1)?;
    let three = inserted(&two, 1, 2)?.push(Item { number: 4 })?;
    assert!(rt; numbers(alloc, &three)?.as_slice() == b"\x01\x02\x03\x04".as_slice());
    let last = removed(&replaced(&three, 3, 9)?, 0)?.copy()?;
    assert!(rt; numbers(alloc, &last)?.as_slice() == b"\x02\x03\x09".as_slice());
    assert!(rt; numbers(alloc, &two)?.as_slice() == b"\x01\x03".as_slice());
    assert!(rt; removed(&one, 0)?.len() == 0);
    Ok(())
}

// The sum of the numbers below 200 is 19,900.
#[test]
fn long_lists_are_edited(rt: HostRuntime) -> Result<(), Fail> {
    let alloc = rt.alloc();
    let whole = three_times(alloc, &two_hundred(alloc)?, 250)?;
    assert!(rt; has(&whole, 601, 59_950, 600, 250) && has(&whole, 601, 59_950, 300, 100));
    let more = inserted(&whole, 300, 251)?;
    assert!(rt; has(&more, 602, 60_201, 300, 251) && has(&more, 602, 60_201, 301, 100));
    let other = replaced(&whole, 10, 252)?;
    assert!(rt; has(&other, 601, 60_192, 10, 252) && has(&other, 601, 60_192, 11, 11));
    let fewer = removed(&whole, 599)?;
    assert!(rt; has(&fewer, 600, 59_751, 598, 198) && has(&fewer, 600, 59_751, 599, 250));
    assert!(rt; has(&whole, 601, 59_950, 10, 10) && has(&whole, 601, 59_950, 599, 199));
    Ok(())
}

// The sum of the numbers below 199 is 19,701, and 0 counts nothing.
#[test]
fn entries_are_found_by_sums(rt: HostRuntime) -> Result<(), Fail> {
    let alloc = rt.alloc();
    let list = three_times(alloc, &two_hundred(alloc)?, 250)?;
    for (sum, place) in [
        (0, 1),
        (19_700, 198),
        (19_701, 199),
        (19_900, 201),
        (59_700, 600),
    ] {
        assert!(rt; found(&list, sum) == place && reached(&list, i128::from(sum)) == place);
    }
    Ok(())
}
