//! Finding a message's OPT record and reading what it says (RFC 6891, section 6.1).

ghost use Rattle.std.specs.Prelude.{◌≡◌, ◌<◌, IfOk, IfErr, filter, length};
ghost use Rattle.std.specs.Option.{option_copied, option_to_list, option_map};
ghost use Rattle.edns_opt.specs.Options.{AreOptions};
ghost use Rattle.edns_opt.specs.Opt.{is_opt, Says, IsOptOf, HasCause};
ghost use Rattle.edns_opt.specs.Reading.{first_option, options_of, opt_with, said_by, opt_of, Gives};
ghost use Rattle.edns_opt.specs.Causes.{HasCauseIn, IsDouble, seen};

use crate::fault::EdnsFault;
use crate::opt::{DO_BIT, EdnsItem, Opt, OptionList};
use dns_message::numbers::KIND_OPT;
use dns_message::{Message, Record};
use item_list::Bytes;
use std::alloc::Global;

/// What the OPT record of a message says, if it has one: only the additional section counts. The owner name, which
/// RFC 6891 wants to be the root, and the bits Z are passed over.
pub fn find(alloc: Global, message: &Message) -> Result<Option<Opt>, EdnsFault>
    ensures found { IfOk result (IsOptOf message.now) }
    ensures cause { IfErr result (HasCause message.now) }
    ensures computed { Gives result (opt_of message.now) }
{
    match only_opt(message.additionals.as_slice())? {
        None => Ok(None),
        Some(item) => Ok(Some(said_by(alloc, item)?)),
    }
}

/// The one OPT record, if there is one.
fn only_opt(records: &[Record]) -> Result<Option<&Record>, EdnsFault>
    ensures found { IfOk result (λ found. filter is_opt records.now ≡ option_to_list (option_copied found)) }
    ensures cause { IfErr result (IsDouble (filter is_opt records.now)) }
{
    let mut found = None;
    for item in records {
        if item.kind == KIND_OPT {
            if found.is_some() {
                return Err(EdnsFault::DoubleOpt);
            }
            found = Some(item);
        }
    }
    Ok(found)
}

/// What an OPT record says.
fn said_by(alloc: Global, item: &Record) -> Result<Opt, EdnsFault>
    ensures found { IfOk result (Says item.now) }
    ensures cause { IfErr result (HasCauseIn item.now.rdata) }
    ensures computed { Gives result (said_by item.now) }
{
    let options = options_of(alloc, item.rdata.as_slice())?;
    Ok(opt_with(item.class, item.ttl, options))
}

/// What an OPT record of this class, ttl and options says.
fn opt_with(class: u16, ttl: u32, options: OptionList) -> Opt
    ensures { result ≡ opt_with class ttl options }
{
    let [ext_rcode, version, flags, _] = ttl.to_be_bytes();
    Opt {
        size: class,
        ext_rcode,
        version,
        do_bit: flags >= DO_BIT,
        options,
    }
}

/// The options that the rdata is.
fn options_of(alloc: Global, rdata: &[u8]) -> Result<OptionList, EdnsFault>
    ensures found { IfOk result (AreOptions rdata.now) }
    ensures cause { IfErr result (HasCauseIn rdata.now) }
    ensures computed { Gives result (options_of rdata.now) }
{
    let mut options = OptionList::new(alloc);
    let mut rest = rdata;
    while !rest.is_empty() {
        let Some((code, content, behind)) = first_option(rest) else {
            return Err(EdnsFault::BadOptions((rdata.len() - rest.len()) as u64));
        };
        let content = Bytes::of(alloc, content)?;
        options.push(EdnsItem { code, content })?;
        rest = behind;
    }
    Ok(options)
}

/// The code and the content of the option at the front of the bytes, and the bytes behind it.
fn first_option(bytes: &[u8]) -> Option<(u16, &[u8], &[u8])>
    ensures { first_option bytes.now ≡ option_map seen result }
{
    let [a, b, c, d, rest @ ..] = bytes else {
        return None;
    };
    let len = u16::from_be_bytes([*c, *d]) as usize;
    if rest.len() < len {
        return None;
    }
    let (content, behind) = rest.split_at(len);
    Some((u16::from_be_bytes([*a, *b]), content, behind))
}
