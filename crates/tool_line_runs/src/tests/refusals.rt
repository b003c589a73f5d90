//! Which words are refused, and which aren't.
//! A table is a text of command lines, one a line.

use super::*;

/// Words that either tool refuses: none behind the options, an option twice, a flag with a value, an unknown option, a
/// missing value, one that begins with `-`, and one that can't be read.
const REFUSED: &str = "--
--tcp
--tcp --tcp x
--port 1 --port=2 x
--server 192.0.2.1 --server 192.0.2.1 x
--tcp=1 x
--tcp= x
--no-edns=no x
--journal --journal x
--journal=1 x
--journal
--dns x
--help x
--version x
--serv 192.0.2.1 x
--Tcp x
-x x
-h x
--=1 x
x --port
--port -- x
--port --tcp x
--port -5 x
--resolv -a x
--port 0 x
--port 65536 x
--port +5 x
--port 053 x
--port 5x x
--port= x
--timeout 0 x
--timeout 60001 x
--tries 0 x
--tries 11 x
--server= x
--server a x
--server 192.0.2.1, x
--server ,192.0.2.1 x
--server 192.0.2.1:53 x
--server 1.1.1.1,1.1.1.1,1.1.1.1,1.1.1.1,1.1.1.1,1.1.1.1,1.1.1.1,1.1.1.1,1.1.1.1 x
--resolv= x
--resolv  x";

/// Words that adig refuses: two names, types, classes and reversed names that can't be read, and options of ahost.
const ADIG_REFUSES: &str = "x y
-- x y
--type OPT x
--type TYPE65536 x
--type TYPE01 x
--type= x
--class XX x
--class CLASS65536 x
--class TYPE1 x
--reverse example.com
--reverse 192.0.2
--reverse --type XX 192.0.2.1
--hosts h x
--family any x
--sources 192.0.2.1 x
--no-sort x
--no-search x
--follow x
--first x
--quit x
--workers 1 x
--load 1
--seed 1 x
--then 192.0.2.1 x
--cookie --cookie x
--cookie=1 x";

/// Words that ahost refuses: options of adig, values that can't be read, and names, later servers or a journal beside a load.
const AHOST_REFUSES: &str = "--type A x
--class IN x
--primary x
--ignore-tc x
--no-recurse x
--no-check x
--search x
--reverse 192.0.2.1
--hosts= x
--family 5 x
--family ANY x
--sources 1.1.1.1,1.1.1.1,1.1.1.1,1.1.1.1,1.1.1.1,1.1.1.1,1.1.1.1,1.1.1.1,1.1.1.1 x
--sources= x
--workers 17 x
--workers 00 x
--load 0
--load 4097
--load 01
--seed 65536 x
--then a x
--load 1 x
--load 1 --then 192.0.2.1
--load 1 --journal
--journal --load 1 --seed 2
--cookie x";

/// Words that adig takes.
const ADIG_TAKES: &str = "x
-- -x
-- --
-

x --tcp
--port=65535 x
--timeout 60000 x
--tries 10 x
--resolv - x
--resolv=-a x
--type aaaa x
--type type41 x
--class any x
--tcp --no-edns --primary --ignore-tc --no-recurse --no-check --search --mix x
--reverse ::1
--tcp -- --tcp
--journal x
--cookie x
x --cookie --journal
--journal -- --journal";

/// Words that ahost takes.
const AHOST_TAKES: &str = "x
x y
--load 4096
--load 1 --seed 65535
--seed 7 x
--workers 16 x
--workers=0 x
--family any x
--mix --no-sort --no-search --follow --first --quit x
--then 192.0.2.1,192.0.2.2 x
--sources ::1 --hosts h x
--journal x y
x --follow --journal";

/// Whether adig takes the words.
fn adig_takes<'a>(alloc: Global, words: &'a [&'a str]) -> Result<bool, WordFault> {
    match adig_ask(alloc, words) {
        Ok(_) => Ok(true),
        Err(WordFault::Refused) => Ok(false),
        Err(WordFault::NoMemory) => Err(WordFault::NoMemory),
    }
}

/// Whether ahost takes the words.
fn ahost_takes<'a>(alloc: Global, words: &'a [&'a str]) -> Result<bool, WordFault> {
    match ahost_ask(alloc, words) {
        Ok(_) => Ok(true),
        Err(WordFault::Refused) => Ok(false),
        Err(WordFault::NoMemory) => Err(WordFault::NoMemory),
    }
}

/// Whether either tool takes the words: adig, and ahost.
fn takes<'a>(alloc: Global, words: &'a [&'a str]) -> Result<(bool, bool), WordFault> {
    Ok((adig_takes(alloc, words)?, ahost_takes(alloc, words)?))
}

/// Whether either tool takes the words of a line.
fn takes_line(alloc: Global, line: &str) -> Result<(bool, bool), Fail> {
    let words = words_of(alloc, line)?;
    Ok(takes(alloc, words.as_slice())?)
}

#[test]
fn words_are_refused(rt: HostRuntime) -> Result<(), Fail> {
    for line in REFUSED.split('\n') {
        assert!(rt; takes_line(rt.alloc(), line)? == (false, false), "{line}");
    }
    Ok(())
}

#[test]
fn adig_refuses_words(rt: HostRuntime) -> Result<(), Fail> {
    for line in ADIG_REFUSES.split('\n') {
        assert!(rt; !takes_line(rt.alloc(), line)?.0, "{line}");
    }
    Ok(())
}

#[test]
fn ahost_refuses_words(rt: HostRuntime) -> Result<(), Fail> {
    for line in AHOST_REFUSES.split('\n') {
        assert!(rt; !takes_line(rt.alloc(), line)?.1, "{line}");
    }
    Ok(())
}

/// An address with a blank before it, which no line of the tables can say.
const SPACED: &[&str] = &["--server", "192.0.2.1, 192.0.2.2", "x"];

// Nor can one say no word at all.
#[test]
fn no_words_and_blanks_are_refused(rt: HostRuntime) -> Result<(), Fail> {
    assert!(rt; takes(rt.alloc(), &[])? == (false, false));
    assert!(rt; takes(rt.alloc(), SPACED)? == (false, false));
    Ok(())
}

#[test]
fn adig_takes_words(rt: HostRuntime) -> Result<(), Fail> {
    for line in ADIG_TAKES.split('\n') {
        assert!(rt; takes_line(rt.alloc(), line)?.0, "{line}");
    }
    Ok(())
}

#[test]
fn ahost_takes_words(rt: HostRuntime) -> Result<(), Fail> {
    for line in AHOST_TAKES.split('\n') {
        assert!(rt; takes_line(rt.alloc(), line)?.1, "{line}");
    }
    Ok(())
}
