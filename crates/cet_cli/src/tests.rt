//! Texts of values that no command takes yet.

use crate::signals::signals_of;
use crate::turns::turns_of;
use crate::values::Value;
use cet_words::Signal;
use std::alloc::{AllocError, Global};
use std::process::Abort;
use std::test::Fail;

const STYLE: Value = Value::OneOf {
    first: "full",
    others: &["last"],
};

const ANY: Value = Value::Number {
    low: 0,
    high: u64::MAX,
};

/// The texts before the bar are such a value, and those behind it are none.
fn fit(rt: &impl Abort, value: Value, right: &[&str], wrong: &[&str]) {
    for text in right {
        assert!(rt; value.fits(text), "{text}");
    }
    for text in wrong {
        assert!(rt; !value.fits(text), "{text}");
    }
}

/// An item so many times, with commas between.
fn joined(alloc: Global, item: &str, count: usize) -> Result<String, AllocError> {
    let mut text = String::from_str(alloc, item)?;
    for _ in 1..count {
        text.push_str(",")?;
        text.push_str(item)?;
    }
    Ok(text)
}

#[test]
fn texts_are_values(rt: HostRuntime) {
    fit(
        &rt,
        STYLE,
        &["full", "last"],
        &["", "fully", "Full", "full,last"],
    );
    fit(
        &rt,
        ANY,
        &["0", "18446744073709551615", "0xffffffffffffffff"],
        &["", "18446744073709551616", "-1", "+1", "1,"],
    );
    fit(
        &rt,
        Value::Signals,
        &[
            "",
            "0:0:1",
            "31:100000:31",
            "0x1f:0x0:0x1F",
            "0:6:10,0:6:10",
        ],
        &[
            ",",
            "0:0:1,",
            ",0:0:1",
            "0:0:1,,0:0:1",
            "32:0:1",
            "0:100001:1",
            "0:0:0",
            "0:0:32",
            "0:0",
            "0:0:1:",
            "0:0:1:1",
            "0::1",
            ":0:1",
            "0:0:",
            "+0:0:1",
            "0:0:-1",
            "0:0: 1",
            "0;0;1",
            "x",
        ],
    );
    fit(
        &rt,
        Value::Turns,
        &[
            "",
            "0",
            "31",
            "0*1",
            "0*1000000",
            "0*999999,1",
            "0x1f*0x2,3",
        ],
        &[
            ",",
            "0,",
            ",0",
            "0,,0",
            "32",
            "1*0",
            "0*1000001",
            "0*1000000,1",
            "0*",
            "*1",
            "*",
            "0*1*1",
            "0**1",
            "-1",
            "0*+1",
            " 0",
            "0:1",
        ],
    );
}

#[test]
fn lists_have_so_many_items(rt: HostRuntime) -> Result<(), Fail> {
    let alloc = rt.alloc();
    for (count, fits) in [(256, true), (257, false)] {
        let text = joined(alloc, "7:100:9", count)?;
        assert_eq!(rt; Value::Signals.fits(text.as_str()), fits);
    }
    for (item, count, fits) in [
        ("5", 10_000, true),
        ("5", 10_001, false),
        ("5*100", 10_000, true),
        ("5*101", 9_901, false),
    ] {
        let text = joined(alloc, item, count)?;
        assert_eq!(rt; Value::Turns.fits(text.as_str()), fits);
    }
    Ok(())
}

#[test]
fn lists_are_read_in_their_order(rt: HostRuntime) -> Result<(), Fail> {
    let alloc = rt.alloc();
    let signals = signals_of(alloc, "0:6:10,31:0x10:1")?.ok_or("no signals")?;
    let wanted = [
        Signal {
            thread: 0,
            count: 6,
            number: 10,
        },
        Signal {
            thread: 31,
            count: 16,
            number: 1,
        },
    ];
    assert_eq!(rt; signals.as_slice(), wanted.as_slice());
    assert!(rt; signals_of(alloc, "0:6:10,")?.is_none());

    let turns = turns_of(alloc, "3*2,0,31*1")?.ok_or("no turns")?;
    assert_eq!(rt; turns.as_slice(), [3, 3, 0, 31].as_slice());
    let text = joined(alloc, "5*100", 10_000)?;
    let turns = turns_of(alloc, text.as_str())?.ok_or("no turns")?;
    assert_eq!(rt; turns.len(), 1_000_000);
    assert!(rt; turns_of(alloc, "1*0")?.is_none());
    Ok(())
}
