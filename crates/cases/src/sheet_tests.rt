use crate::sheet_texts::between;
use std::alloc::Global;
use std::process::Abort;
use std::test::Fail;
use writers::answers::checks::checked;

const WIRE: &str = "wire,1,2,30,1,2,3,5,70000\n";

// The answer to a sheet is this one.
fn answered(rt: &impl Abort, input: &[u8], answer: &str) -> Result<(), Fail> {
    assert_eq!(rt; checked(input).text(), answer.as_bytes());
    Ok(())
}

// Each sheet comes back as it is.
fn all_accepted(rt: &impl Abort, inputs: &[&str]) -> Result<(), Fail> {
    for input in inputs {
        answered(rt, input.as_bytes(), input)?;
    }
    Ok(())
}

// Each sheet is refused with the line beside it.
fn all_refused(rt: &impl Abort, cases: &[(&str, &str)]) -> Result<(), Fail> {
    for (input, answer) in cases {
        assert_eq!(rt;
            checked(input.as_bytes()).text(),
            answer.as_bytes(),
            "{}",
            input
        );
    }
    Ok(())
}

#[test]
fn good_sheets_come_back(rt: HostRuntime) -> Result<(), Fail> {
    all_accepted(
        &rt,
        &[
            "sheet,9,23,23\nwire,1,2,30,1,2,3,5,70000\nend,1\n",
            "sheet,9,23,23\nend,0\n",
            "sheet,300,123456,123456\nend,0\n",
            "sheet,1,6,1\nend,0\n",
            "sheet,9,23,23\nwire,1000,1000,1000,1000,1000,1000,1000,60000000\nend,1\n",
            "sheet,9,23,23\nwire,0,0,0,0,0,0,0,0\nend,1\n",
            "sheet,6,23,23\nwire,1,2,30,1,2,3,5,70000\nend,1\n",
        ],
    )
}

#[test]
fn words_and_lines(rt: HostRuntime) -> Result<(), Fail> {
    all_refused(
        &rt,
        &[
            ("", "refused,53,2,1,1\n"),
            ("\n", "refused,53,2,1,1\n"),
            ("shee", "refused,53,2,1,1\n"),
            ("Sheet,9,23,23\nend,0\n", "refused,53,2,1,1\n"),
            ("wire,1,2,30,1,2,3,5,70000\n", "refused,53,2,1,1\n"),
            ("sheet,9,23,23\n", "refused,53,2,2,1\n"),
            (
                "sheet,9,23,23\nwire,1,2,30,1,2,3,5,70000\n",
                "refused,53,2,3,1\n",
            ),
            ("sheet,9,23,23\n\nend,0\n", "refused,53,2,2,1\n"),
            (
                "sheet,9,23,23\nsheet,9,23,23\nend,0\n",
                "refused,53,2,2,1\n",
            ),
            ("sheet,9,23,23\nend,0\n\n", "refused,53,2,3,1\n"),
            ("sheet,9,23,23\nend,0\nend,0\n", "refused,53,2,3,1\n"),
            ("sheet,9,23,23\nend,0\nx", "refused,53,2,3,1\n"),
            ("sheet", "refused,52,2,1,0\n"),
            ("sheet,9,23,23", "refused,52,2,1,0\n"),
            ("sheet,9,23\nend,0\n", "refused,52,2,1,0\n"),
            ("sheet,9,23,23,\nend,0\n", "refused,52,2,1,0\n"),
            ("sheet,9,23,23\nend,0", "refused,52,2,2,0\n"),
            ("sheet,9,23,23\nend\n", "refused,52,2,2,0\n"),
            (
                "sheet,9,23,23\nwire,1,2,30,1,2,3,5\nend,1\n",
                "refused,52,2,2,0\n",
            ),
            ("sheet,x,23,23,9\nend,0\n", "refused,52,2,1,0\n"),
            ("sheet,9,23,23\nend,1\n", "refused,54,2,2,0\n"),
            (
                "sheet,9,23,23\nwire,1,2,30,1,2,3,5,70000\nend,0\n",
                "refused,54,2,3,0\n",
            ),
            ("sheet,9,23,23\nend,1\nmore", "refused,54,2,2,0\n"),
        ],
    )
}

#[test]
fn fields(rt: HostRuntime) -> Result<(), Fail> {
    all_refused(
        &rt,
        &[
            ("sheet,09,23,23\nend,0\n", "refused,51,1,1,2\n"),
            ("sheet,,23,23\nend,0\n", "refused,51,1,1,2\n"),
            ("sheet, 9,23,23\nend,0\n", "refused,51,1,1,2\n"),
            ("sheet,100000000,23,23\nend,0\n", "refused,51,1,1,2\n"),
            ("sheet,9,,23\nend,0\n", "refused,51,1,1,3\n"),
            ("sheet,9,32,23\nend,0\n", "refused,51,1,1,3\n"),
            ("sheet,9,22,23\nend,0\n", "refused,51,1,1,3\n"),
            ("sheet,9,23,07\nend,0\n", "refused,51,1,1,4\n"),
            ("sheet,9,23,7\nend,0\n", "refused,51,1,1,4\n"),
            ("sheet,9,23,23\r\nend,0\n", "refused,51,1,1,4\n"),
            (
                "sheet,9,23,23\nwire,1,2,30,1,2,3,5,x\nend,1\n",
                "refused,51,1,2,9\n",
            ),
            (
                "sheet,9,23,23\nwire,1,2,-3,1,2,3,5,1\nend,1\n",
                "refused,51,1,2,4\n",
            ),
            ("sheet,9,23,23\nend,00\n", "refused,51,1,2,2\n"),
            ("sheet,999,32,23\nend,0\n", "refused,51,1,1,3\n"),
        ],
    )
}

#[test]
fn limits(rt: HostRuntime) -> Result<(), Fail> {
    all_refused(
        &rt,
        &[
            (
                "sheet,9,23,23\nwire,1001,2,30,1,2,3,5,70000\nend,1\n",
                "refused,12,3,2,2\n",
            ),
            (
                "sheet,9,23,23\nwire,1,2,30,1,2,3,1001,60000001\nend,1\n",
                "refused,12,3,2,8\n",
            ),
            (
                "sheet,9,23,23\nwire,1,2,30,1,2,3,5,60000001\nend,1\n",
                "refused,12,3,2,9\n",
            ),
            ("sheet,0,23,23\nend,0\n", "refused,15,3,1,2\n"),
            ("sheet,301,23,23\nend,0\n", "refused,15,3,1,2\n"),
            ("sheet,1,23,23\nend,0\n", "refused,16,3,1,0\n"),
            (
                "sheet,5,23,23\nwire,1,2,30,1,2,3,5,70000\nend,1\n",
                "refused,16,3,2,0\n",
            ),
            (
                "sheet,9,23,23\nwire,1,2,30,1,2,3,5,70000\nwire,1,2,30,1,2,3,5,70000\nend,2\n",
                "refused,16,3,3,0\n",
            ),
        ],
    )
}

#[test]
fn twenty_four_wires_and_one_more(rt: HostRuntime) -> Result<(), Fail> {
    let heap = rt.alloc();
    let full = between(
        heap,
        b"sheet,300,123456,123456\n",
        WIRE.as_bytes(),
        24,
        b"end,24\n",
    )?;
    assert_eq!(rt; checked(full.as_slice()).text(), full.as_slice());
    let over = between(
        heap,
        b"sheet,300,123456,123456\n",
        WIRE.as_bytes(),
        25,
        b"end,25\n",
    )?;
    answered(&rt, over.as_slice(), "refused,13,3,26,0\n")
}

// A head whose last field and line end come to exactly so many bytes.
fn long_head(heap: Global, len: usize) -> Result<Vec<u8>, Fail> {
    Ok(between(heap, b"sheet,9,23,", b"1", len.saturating_sub(12), b"\n")?)
}

#[test]
fn the_first_4096_bytes_are_read(rt: HostRuntime) -> Result<(), Fail> {
    let heap = rt.alloc();
    answered(&rt, long_head(heap, 4096)?.as_slice(), "refused,51,1,1,4\n")?;
    answered(&rt, long_head(heap, 4097)?.as_slice(), "refused,52,2,1,0\n")
}
