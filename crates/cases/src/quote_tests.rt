use quotes::quotes::quoted;
use std::alloc::Global;
use std::process::Abort;
use std::test::Fail;

const ONE: &str = "sheet,9,23,23\nwire,1,2,30,1,2,3,5,70000\nend,1\n";

const TWO: &str = "sheet,12,2,23\nwire,1,2,30,1,2,3,5,70000\nwire,1,2,30,1,2,3,5,70000\nend,2\n";

const USAGE: &str =
    "usage: price WIDTHS SPACES [total|worst|late], a digit for each width and space\n";

// Each sheet, with its arguments parted by blanks, is answered by the line beside it.
fn all_answered(rt: &impl Abort, heap: Global, cases: &[(&str, &str, &str)]) -> Result<(), Fail> {
    for (sheet, words, answer) in cases {
        let mut args = Vec::new(heap);
        for word in words.split(' ') {
            args.push(String::from_str(heap, word)?)?;
        }
        let got = quoted(sheet.as_bytes(), args.as_slice());
        assert_eq!(rt; got.text(), answer.as_bytes(), "{}", words);
    }
    Ok(())
}

#[test]
fn worked_prices(rt: HostRuntime) -> Result<(), Fail> {
    all_answered(
        &rt,
        rt.alloc(),
        &[
            (ONE, "2 33", "price,8,560,76800\n"),
            (ONE, "3 33", "price,9,740,65200\n"),
            (ONE, "2 33 total", "price,8,560,76800\n"),
            (ONE, "2 33 worst", "price,8,560,76800\n"),
            (ONE, "2 33 late", "price,8,560,1,76800\n"),
            (ONE, "3 33 late", "price,9,740,0,65200\n"),
            (ONE, "3 23 late", "price,8,790,0,66200\n"),
            (ONE, "3 22", "price,7,840,67200\n"),
            (TWO, "22 332", "price,12,1170,154800\n"),
            (TWO, "22 332 worst", "price,12,1170,78000\n"),
            ("sheet,9,23,23\nend,0\n", " 3", "price,3,0,0\n"),
            ("sheet,9,23,23\nend,0\n", " 3 late", "price,3,0,0,0\n"),
        ],
    )
}

#[test]
fn refused_prices(rt: HostRuntime) -> Result<(), Fail> {
    all_answered(
        &rt,
        rt.alloc(),
        &[
            (ONE, "2 3", "refused,21,4,0,0\n"),
            (ONE, "22 33", "refused,21,4,0,0\n"),
            (ONE, " 33", "refused,21,4,0,0\n"),
            (
                ONE,
                "222222222222222222222222222222 33",
                "refused,21,4,0,0\n",
            ),
            (ONE, "4 33", "refused,22,4,0,0\n"),
            (ONE, "0 33", "refused,22,4,0,0\n"),
            (ONE, "3 93", "refused,22,4,0,0\n"),
            (
                "sheet,8,23,23\nwire,1,2,30,1,2,3,5,70000\nend,1\n",
                "3 33",
                "refused,24,4,0,0\n",
            ),
            ("sheet,09,23,23\nend,0\n", "2 33", "refused,51,1,1,2\n"),
            ("", "2 33", "refused,53,2,1,1\n"),
        ],
    )
}

#[test]
fn other_arguments(rt: HostRuntime) -> Result<(), Fail> {
    all_answered(
        &rt,
        rt.alloc(),
        &[
            (ONE, "2", USAGE),
            (ONE, "2 33 total more", USAGE),
            (ONE, "2 33 Total", USAGE),
            (ONE, "2 33 ", USAGE),
            (ONE, "x 33", USAGE),
            (ONE, "2 3,3", USAGE),
            ("", "x", USAGE),
        ],
    )
}
