use crate::common::{holds, same, same_text};
use px_base::{Answer, Text};
use px_generated::*;
use std::process::Abort;
use std::test::Fail;

/// The head of the first answer of the job of 7.
const FIRST_HEAD: &str =
    "HTTP/1.1 200 OK\r\nContent-Type: text/html\r\nSet-Cookie: s=1\r\nContent-Length: 1757\r\n\r\n";

/// Of each session of the job of 7: how many bytes its requests have in all, and its answers.
const LENGTHS: [(usize, usize); SESSIONS] = [
    (3_571, 116_290),
    (3_561, 111_921),
    (3_562, 103_502),
    (3_567, 114_451),
    (3_567, 119_002),
    (3_558, 103_348),
    (3_583, 100_898),
    (3_563, 95_415),
    (3_575, 114_409),
    (3_575, 107_865),
];

#[test]
fn the_first_numbers_behind_seven(rt: HostRuntime) {
    let mut draws = Draws::new(7);
    let numbers = [draws.draw(32_768), draws.draw(32_768), draws.draw(32_768)];
    same(
        &rt,
        numbers,
        [
            1_282_168_116 / 65_536,
            642_666_333 / 65_536,
            712_265_938 / 65_536,
        ],
    );
}

#[test]
fn the_files_of_the_job_of_seven(rt: HostRuntime) -> Result<(), Fail> {
    let files = job_files(rt.alloc(), &mut Draws::new(7))?;
    let [
        (main, main_text),
        (actions, sections),
        (filter, filter_text),
    ] = files.as_slice()
    else {
        panic!(rt; "three files are wanted");
    };
    same_text(&rt, main, "config");
    same_text(
        &rt,
        main_text,
        "actionsfile generated.action\nfilterfile generated.filter\n",
    );
    same_text(&rt, actions, "generated.action");
    same_text(&rt, filter, "generated.filter");
    same_text(&rt, filter_text, "FILTER: f gen\ns/a/b/g\n");
    same(&rt, sections.len(), 28_494);
    same(&rt, count_lines(sections), 2_000);
    Ok(())
}

/// How many line feeds a text has.
fn count_lines(text: &Text) -> usize {
    text.as_bytes()
        .iter()
        .filter(|byte| **byte == b'\n')
        .count()
}

#[test]
fn the_first_and_the_last_section(rt: HostRuntime) -> Result<(), Fail> {
    let files = job_files(rt.alloc(), &mut Draws::new(7))?;
    let [_, (_, sections), _] = files.as_slice() else {
        panic!(rt; "three files are wanted");
    };
    begins(
        &rt,
        sections,
        "{+crunch-incoming-cookies}\n.h64.test/p6\n{+block{b}}\n.h74.test/p31\n",
    );
    ends(
        &rt,
        sections,
        "{-block}\n.h12.test/p13\n{-filter{f}}\n.h38.test/p46\n",
    );
    Ok(())
}

/// Asserts how a text begins.
fn begins(rt: &impl Abort, text: &Text, front: &str) {
    assert!(rt; text.as_bytes().starts_with(front.as_bytes()), "{front}");
}

/// Asserts how a text ends.
fn ends(rt: &impl Abort, text: &Text, end: &str) {
    assert!(rt; text.as_bytes().ends_with(end.as_bytes()), "{end}");
}

/// The bytes of the first of the answers, which is a link without cuts.
fn first_bytes<'a>(rt: &impl Abort, answers: &'a [Answer]) -> &'a Text {
    let Some(Answer::Link { bytes, cuts, .. }) = answers.first() else {
        panic!(rt; "a link is wanted");
    };
    holds(rt, cuts.is_empty(), "no cuts");
    bytes
}

#[test]
fn the_first_session_of_the_job_of_seven(rt: HostRuntime) -> Result<(), Fail> {
    let alloc = rt.alloc();
    let session = job_session(alloc, &mut GeneratedJob::new(alloc, 7)?.draws)?;
    begins(
        &rt,
        &session.input,
        "GET http://h99.test/p8 HTTP/1.1\r\n\r\nGET http://h",
    );
    ends(
        &rt,
        &session.input,
        "\r\n\r\nGET http://h89.test/p12 HTTP/1.1\r\n\r\n",
    );
    same(&rt, session.answers.len(), 100);
    let bytes = first_bytes(&rt, session.answers.as_slice());
    same(&rt, bytes.len(), 1_840);
    begins(&rt, bytes, FIRST_HEAD);
    holds(
        &rt,
        is_all_a(bytes, FIRST_HEAD.len()),
        "the body is of one letter",
    );
    Ok(())
}

/// Whether all bytes behind the first so many are the letter of the job's bodies.
fn is_all_a(text: &Text, front: usize) -> bool {
    text.as_bytes().iter().skip(front).all(|byte| *byte == b'a')
}

/// How many bytes answers have in all.
fn answered_bytes(answers: &[Answer]) -> usize {
    let mut count: usize = 0;
    for answer in answers {
        if let Answer::Link { bytes, .. } = answer {
            count = count.saturating_add(bytes.len());
        }
    }
    count
}

#[test]
fn the_ten_sessions_of_the_job_of_seven(rt: HostRuntime) -> Result<(), Fail> {
    let alloc = rt.alloc();
    let mut job = GeneratedJob::new(alloc, 7)?;
    for (asked, answered) in LENGTHS {
        let session = job_session(alloc, &mut job.draws)?;
        let lengths = (
            session.input.len(),
            answered_bytes(session.answers.as_slice()),
        );
        same(&rt, lengths, (asked, answered));
    }
    Ok(())
}
