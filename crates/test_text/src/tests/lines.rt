//! Lines, read and written: each verb and query at its bounds, and each rule broken in each way.

mod misspelled;
mod requests;
mod spelled;

use crate::tests::checks::{NOWHERE, same, shows};
use liq_text::{read_line, read_session_line, write_request};
use liq_types::{Call, Command, HintWords, Query, Request};
use std::alloc::Global;

// Whether the request is written as this line.
fn is_written(alloc: Global, request: &Request, line: &[u8]) -> bool {
    let mut out = Vec::new(alloc);
    write_request(request, &mut out).is_ok() && out.as_slice() == line
}

// Whether the line is read as a request that is written as the other line.
fn is_read(alloc: Global, line: &[u8], written: &[u8]) -> bool {
    match read_line(line) {
        Ok(request) => is_written(alloc, &request, written),
        Err(_) => false,
    }
}

// The place of the first line that is not read and written again as it is.
fn first_odd_line(alloc: Global, lines: &str) -> u64 {
    for (place, line) in lines.split('\n').enumerate() {
        if !is_read(alloc, line.as_bytes(), line.as_bytes()) {
            return place as u64;
        }
    }
    NOWHERE
}

fn first_odd_hint(alloc: Global, lines: &[(&[u8], &[u8])]) -> u64 {
    for (place, (line, written)) in lines.iter().enumerate() {
        if !is_read(alloc, line, written) {
            return place as u64;
        }
    }
    NOWHERE
}

fn first_odd_call(alloc: Global, calls: &[(Call, &[u8])]) -> u64 {
    for (place, (call, line)) in calls.iter().enumerate() {
        let command = Command {
            client: 21,
            number: 22,
            call: *call,
        };
        if !is_written(alloc, &Request::Do(command), line) {
            return place as u64;
        }
    }
    NOWHERE
}

fn first_odd_query(alloc: Global, queries: &[(Query, &[u8])]) -> u64 {
    for (place, (query, line)) in queries.iter().enumerate() {
        if !is_written(alloc, &Request::Ask(*query), line) {
            return place as u64;
        }
    }
    NOWHERE
}

// Whether the line is read as this session and a request that is written as the other line.
fn is_read_in(alloc: Global, line: &[u8], session: u8, written: &[u8]) -> bool {
    match read_session_line(line) {
        Ok((read, request)) if read == session => is_written(alloc, &request, written),
        _ => false,
    }
}

fn first_odd_session(alloc: Global, lines: &[(&[u8], u8, &[u8])]) -> u64 {
    for (place, (line, session, behind)) in lines.iter().enumerate() {
        if !is_read_in(alloc, line, *session, behind) {
            return place as u64;
        }
    }
    NOWHERE
}

#[test]
fn good_lines(rt: HostRuntime) {
    let alloc = rt.alloc();
    let places = [
        first_odd_line(alloc, spelled::WALLETS),
        first_odd_line(alloc, spelled::TROVES),
        first_odd_line(alloc, spelled::POOL),
        first_odd_line(alloc, spelled::OTHERS),
        first_odd_line(alloc, spelled::QUERIES),
        first_odd_line(alloc, spelled::CLIENTS),
        first_odd_call(alloc, &requests::CALLS),
        first_odd_query(alloc, &requests::QUERIES),
        first_odd_hint(alloc, &requests::ABSENT_HINTS),
        first_odd_session(alloc, &requests::IN_SESSIONS),
    ];
    for place in places {
        same(
            &rt,
            place,
            NOWHERE,
            "a line that is read or written otherwise",
        );
    }
}

// The place of the first line of a text that is read as a request.
fn first_read(lines: &str) -> u64 {
    for (place, line) in lines.split('\n').enumerate() {
        if read_line(line.as_bytes()).is_ok() {
            return place as u64;
        }
    }
    NOWHERE
}

// The same of lines that no text has.
fn first_read_of(lines: &[&[u8]]) -> u64 {
    for (place, line) in lines.iter().enumerate() {
        if read_line(line).is_ok() {
            return place as u64;
        }
    }
    NOWHERE
}

// The place of the first line of a text that is read as a session and a request.
fn first_read_in_session(lines: &str) -> u64 {
    for (place, line) in lines.split('\n').enumerate() {
        if read_session_line(line.as_bytes()).is_ok() {
            return place as u64;
        }
    }
    NOWHERE
}

#[test]
fn bad_lines(rt: HostRuntime) {
    let places = [
        first_read_of(&misspelled::SHAPES),
        first_read(misspelled::VERBS),
        first_read(misspelled::WORDS),
        first_read(misspelled::QUERIES),
        first_read(misspelled::NUMBERS),
        first_read(misspelled::LONG),
        first_read_in_session(misspelled::IN_SESSIONS),
    ];
    for place in places {
        same(&rt, place, NOWHERE, "a line that is read");
    }
}

const ADJUST: &[u8] = b"1048575 18446744073709551615 adjust 7 1 2 3 4 5 - 4294967294";

const ADJUSTED: Request = Request::Do(Command {
    client: 1_048_575,
    number: u64::MAX,
    call: Call::Adjust(
        7,
        1,
        2,
        3,
        4,
        5,
        HintWords {
            prev: None,
            next: Some(4_294_967_294),
        },
    ),
});

const LAST_NUMBER: Request = Request::Ask(Query::NextNumber(4_294_967_295));

// Whether the line is read as this request.
fn reads(line: &[u8], request: &Request) -> bool {
    match read_line(line) {
        Ok(read) => read == *request,
        Err(_) => false,
    }
}

#[test]
fn requests_of_lines(rt: HostRuntime) {
    shows(&rt, "a change is read", reads(ADJUST, &ADJUSTED));
    let written = is_written(rt.alloc(), &ADJUSTED, ADJUST);
    shows(&rt, "a change is written", written);
    let number = reads(b"? next_number 4294967295", &LAST_NUMBER);
    shows(&rt, "the greatest account", number);
    let pools = read_session_line(b"8 ? pools");
    let is_eighth = matches!(pools, Ok((8, Request::Ask(Query::Pools))));
    shows(&rt, "the eighth session", is_eighth);
    shows(&rt, "a leading zero", read_line(b"1 1 close 07").is_err());
}
