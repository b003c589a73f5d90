//! Outside examples: messages with an OPT record, byte by byte.

ghost use Rattle.std.specs.Prelude.{◌≡◌, [], IfOk};

use dns_message::{Message, Name, Question, QuestionList, RecordList, decode, encode};
use edns_opt::{EdnsItem, Opt, OptionList, find, full_rcode, with_opt};
use item_list::Bytes;
use std::alloc::Global;
use std::test::Fail;

/// A query for example.com with an OPT record of size 1232: header and question by RFC 1035, section 4.1, the record by
/// RFC 6891, section 6.1.2.
const QUERY: &[u8; 40] =
    b"\x12\x34\x01\0\0\x01\0\0\0\0\0\x01\x07example\x03com\0\0\x01\0\x01\0\0\x29\x04\xd0\0\0\0\0\0\0";

/// That query without its OPT record.
fn plain_query(alloc: Global) -> Result<Message, Fail>
    ensures { IfOk result (λ message. message.additionals ≡ []) }
{
    let mut questions = QuestionList::new(alloc);
    questions.push(Question {
        name: Name::from_text(alloc, b"example.com")?.name,
        kind: 1,
        class: 1,
    })?;
    Ok(Message {
        id: 0x1234,
        flags: 0x0100,
        questions,
        answers: RecordList::new(alloc),
        authorities: RecordList::new(alloc),
        additionals: RecordList::new(alloc),
    })
}

fn opt_of_size(alloc: Global, size: u16) -> Opt {
    Opt {
        size,
        ext_rcode: 0,
        version: 0,
        do_bit: false,
        options: OptionList::new(alloc),
    }
}

#[test]
fn a_query_has_its_record(rt: HostRuntime) -> Result<(), Fail> {
    let alloc = rt.alloc();
    let opt = opt_of_size(alloc, 1232);
    assert!(rt; opt.fits());
    let added = with_opt(alloc, plain_query(alloc)?, &opt)?;
    assert!(rt; encode(alloc, &added)?.as_slice() == QUERY.as_slice());
    assert!(rt; find(alloc, &decode(alloc, QUERY)?)? == Some(opt));
    assert!(rt; find(alloc, &plain_query(alloc)?)?.is_none());
    Ok(())
}

// The client cookie of RFC 9018, appendix A.1, whose record has size 4096, and the response code BADCOOKIE, 23, of
// RFC 7873, section 8.
#[test]
fn a_cookie_is_found_again(rt: HostRuntime) -> Result<(), Fail> {
    let alloc = rt.alloc();
    let mut opt = opt_of_size(alloc, 4096);
    opt.ext_rcode = 1;
    let content = Bytes::of(alloc, b"\x24\x64\xc4\xab\xcf\x10\xc9\x57")?;
    opt.options.push(EdnsItem { code: 10, content })?;
    assert!(rt; opt.fits());
    let mut reply = with_opt(alloc, plain_query(alloc)?, &opt)?;
    reply.flags = 0x8187;
    assert!(rt; full_rcode(&reply, Some(&opt)) == 23);
    assert!(rt; find(alloc, &reply)? == Some(opt));
    Ok(())
}
