//! Scripts and journals as texts, and the texts of their faults.

use std::alloc::Global;
use std::test::Fail;
use tp_entry::{print_journal, read_journal};
use tp_script::{print_script, read_script};
use tp_text::Lines;

// A script with each kind of line, and the greatest numbers.
const SCRIPT: &[u8] =
    b"tempo 1\nshape 2 3 1\nsession 1 3\nsession 2 1\ncommand 1 put 61 - ; get 00ff ; del 61\n\
      command 2 cas 61 31 32\nrecover 2.3 1.1 after 0\ncrash 1.2 after 4294967295\ndrop s2 e2.1 1\n\
      repeat p1.1 p1.3 7 9\nrepeat all 2\npick 0\npick 4294967295\nend\n";

#[test]
fn a_script_is_printed_as_it_was_read(rt: HostRuntime) -> Result<(), Fail> {
    let script = read_script(rt.alloc(), &mut Lines::new(SCRIPT))?;
    assert_eq!(rt; print_script(rt.alloc(), &script)?.as_slice(), SCRIPT);
    Ok(())
}

// The submission of a put, and its delivery with two outputs.
const TWO: &[u8] = b"journal 1\ns1 submit 1\n> 01010101010000000101010201610131\np1.1 deliver 1 1\n\
      > 02010101020100000001010102016101310000000000000001\n> 0301010103010000000101010201610131\n\
      end\n";

// An entry with each event, and the greatest numbers.
const EVENTS: &[u8] =
    b"journal 1\np255.0 drop 18446744073709551615 1\ns0 submit 4294967295\ns255 submit 0\n\
      e1.1 recover 255.4294967295\np1.1 announce\ne1.1 declare 1.0\np1.3 execute 0.1\ns1 crash\n\
      end\n";

#[test]
fn a_journal_is_printed_as_it_was_read(rt: HostRuntime) -> Result<(), Fail> {
    for text in [TWO, EVENTS] {
        let entries = read_journal(rt.alloc(), &mut Lines::new(text))?;
        assert_eq!(rt; print_journal(rt.alloc(), &entries)?.as_slice(), text);
    }
    Ok(())
}

// Whether a journal's text is refused in these words.
fn is_refused(alloc: Global, text: &[u8], wanted: &str) -> Result<bool, Fail> {
    match read_journal(alloc, &mut Lines::new(text)) {
        Ok(_) => Ok(false),
        Err(error) => Ok(format!(in alloc; "{error}")?.as_str() == wanted),
    }
}

#[test]
fn faults_of_a_journal(rt: HostRuntime) -> Result<(), Fail> {
    let cases: [(&[u8], &str); 10] = [
        (b"", "line 1: header"),
        (b"journal 2\n", "line 1: newer"),
        (b"journal 1\n", "line 2: missing"),
        (b"journal 1\np1.1 announces\n", "line 2: word"),
        (b"journal 1\np1.1 deliver 0 1\n", "line 2: number"),
        (b"journal 1\ns1 submit 1\n> 0D\n", "line 3: hex"),
        (
            b"journal 1\ns1 submit 1\n> 010101010100000001010102016101\n",
            "line 3: wire 15 short",
        ),
        (b"journal 1\ns1 submit 1\n> 0f01\n", "line 3: wire 0 kind"),
        (
            b"journal 1\ns1 submit 1\n> 0101010801\n",
            "line 3: wire 3 range",
        ),
        (
            b"journal 1\ns1 submit 1\n> 0d0101020101000000010a\n",
            "line 3: wire 10 trailing",
        ),
    ];
    for (text, wanted) in cases {
        assert!(rt; is_refused(rt.alloc(), text, wanted)?, "{wanted}");
    }
    Ok(())
}
