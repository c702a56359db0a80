// Good and bad lines.
use layout::refusal::Refusal;
use layout::side::Side;
use script::command::{Command, Fault, Numbers, Verb, decide, read_command};
use script::words::cut;
use std::process::Abort;

const REMARK: &[u8] =
    b"# a remark may be longer than 80 bytes ..................................................";

fn refused(rt: &impl Abort, line: &[u8], refusal: Refusal, word: usize) {
    assert_eq!(rt; decide(line), Err(Fault { refusal, word }));
}

#[test]
fn lines_are_decided(rt: HostRuntime) {
    let insert = Command::Insert {
        side: Side::Rows,
        at: 4294967295,
        count: 7,
        value: 0,
    };
    assert_eq!(rt; decide(b"ir 4294967295 0000000007"), Ok(insert));
    assert_eq!(rt; decide(REMARK), Ok(Command::Remark));
    refused(&rt, b"", Refusal::NoCommand, 1);
    refused(&rt, b" p", Refusal::NoCommand, 1);
    refused(&rt, b"\xc3\xa4r 1 2", Refusal::NoCommand, 1);
    let swap = Command::Swap {
        side: Side::Rows,
        first: 1,
        second: 2,
    };
    assert_eq!(rt; decide(b"sr 1 2"), Ok(swap));
    refused(&rt, b"sr 1", Refusal::BadNumber, 1);
    refused(&rt, b"ac 0 x", Refusal::BadNumber, 3);
    assert_eq!(rt; decide(b"u"), Ok(Command::Undo));
    refused(&rt, b"u 1", Refusal::BadNumber, 1);
    assert_eq!(rt; decide(b"k"), Ok(Command::Settle));
    refused(
        &rt,
        b"p                                                                               ",
        Refusal::BadNumber,
        1,
    );
    refused(
        &rt,
        b"p                                                                                ",
        Refusal::NoCommand,
        1,
    );
    refused(&rt, b"p ", Refusal::BadNumber, 1);
    refused(&rt, b"ir 1  2", Refusal::BadNumber, 3);
    refused(&rt, b"ir 1 2 ", Refusal::BadNumber, 4);
    refused(&rt, b"rc 1 00000000002", Refusal::BadNumber, 3);
    refused(&rt, b"n 4294967296 \xb2", Refusal::BadNumber, 2);
}

// Reads a line's command.
fn read(line: &[u8]) -> Option<Result<Command, Fault>> {
    let (word, words) = cut(line, b' ');
    Some(read_command(Verb::try_from(word).ok()?, words))
}

fn reads(rt: &impl Abort, line: &[u8], command: Command) {
    assert_eq!(rt; read(line), Some(Ok(command)));
}

#[test]
fn commands_of_a_side_are_read(rt: HostRuntime) {
    let side = Side::Columns;
    reads(
        &rt,
        b"ic 1 2 3",
        Command::Insert {
            side,
            at: 1,
            count: 2,
            value: 3,
        },
    );
    reads(
        &rt,
        b"rc 1 2",
        Command::Remove {
            side,
            at: 1,
            count: 2,
        },
    );
    reads(
        &rt,
        b"sc 1 2",
        Command::Swap {
            side,
            first: 1,
            second: 2,
        },
    );
    let none = Numbers {
        at: [0; 16],
        count: 0,
    };
    reads(
        &rt,
        b"ar",
        Command::RemoveAt {
            side: Side::Rows,
            lines: none,
        },
    );
    let lines = Numbers {
        at: [16, 15, 14, 13, 12, 11, 10, 9, 8, 7, 6, 5, 4, 3, 2, 1],
        count: 16,
    };
    reads(
        &rt,
        b"ac 16 15 14 13 12 11 10 9 8 7 6 5 4 3 2 1",
        Command::RemoveAt { side, lines },
    );
    let fault = Fault {
        refusal: Refusal::BadNumber,
        word: 1,
    };
    assert_eq!(rt;
        read(b"ac 17 16 15 14 13 12 11 10 9 8 7 6 5 4 3 2 1"),
        Some(Err(fault))
    );
}

#[test]
fn commands_that_stand_alone_are_read(rt: HostRuntime) {
    reads(
        &rt,
        b"n 1 2",
        Command::New {
            rows: 1,
            columns: 2,
            value: 0,
        },
    );
    reads(
        &rt,
        b"z 1 2 3",
        Command::Resize {
            rows: 1,
            columns: 2,
            value: 3,
        },
    );
    reads(&rt, b"u", Command::Undo);
    reads(&rt, b"k", Command::Settle);
    reads(&rt, b"p", Command::Print);
    assert_eq!(rt; Verb::try_from(b"q".as_slice()).ok(), None);
}
