//! What a start comes to: of which leg an attempt begins, where it goes, and with what.

ghost use Rattle.std.specs.Bool.{then_some};
ghost use Rattle.std.specs.Prelude.{◌≡◌, ◌+◌, ◌<◌, ◌==◌, ◌&&◌, ◌^◌, IfOk, IsTrue, OnErr, Some};
ghost use Rattle.channel_model.specs.Servers.{address_of, has_key};
ghost use Rattle.channel_table.specs.Linked.{HasOneLink};
ghost use Rattle.channel_table.specs.Planning.{IsPlan, MayBegin, MayPlan, begun_answer, query_written, start_told};
ghost use Rattle.channel_table.specs.Starting.{link_with};

use super::channel_servers::ChannelServers;
use super::rows::Rows;
use super::starting::Idle;
use chan_types::{Bytes, NoMemory, ServerKey, Token, What};
use channel_model::Begun;
use dns_message::Question;
use net_addr::ServerAddr;
use query_machine::{query_bytes, wait_of};
use resolv_options::Options;
use std::alloc::Global;

/// An attempt that is to begin.
#[derive(Drop)]
pub struct Planned {
    /// The lookup that it is of.
    pub idle: Idle,
    pub server: u32,
    pub address: ServerAddr,
    pub link: u64,
    pub id: u16,
    /// The bits for the case of its letters, if that is drawn.
    pub mix: Option<u16>,
    /// How long it is given.
    pub wait: u64,
    /// Its query.
    pub message: Bytes,
}

/// What a start comes to.
#[derive(Drop)]
pub enum StartPlan {
    /// No leg waits.
    NoLeg,
    /// A leg waits, and attempts have all identifiers.
    NoIdentifier,
    /// This attempt begins.
    Begins(Planned),
}

impl Planned {
    /// What the journal is told of it, where it begins at this moment.
    #[inline(always)]
    pub fn told(&self, moment: u64) -> What
        ensures { result ≡ start_told moment self.now }
    {
        What::Start {
            number: self.idle.number,
            leg: self.idle.leg_number,
            server: self.server,
            link: self.link,
            id: self.id,
            mix: self.mix,
            moment,
        }
    }

    /// What a start answers that has begun it.
    #[inline(always)]
    pub fn into_begun(self) -> Begun
        ensures { result ≡ begun_answer self }
    {
        let Planned {
            idle,
            server,
            address,
            link,
            id,
            message,
            ..
        } = self;
        Begun::Started {
            number: idle.number,
            leg: idle.leg_number,
            server,
            address,
            link,
            id,
            message,
        }
    }
}

/// What a start comes to, with an identifier from this word upwards and with these bits for the case of letters. It
/// begins nothing.
#[inline(always)]
pub fn plan_start<T: Token>(
    alloc: Global,
    options: &Options,
    servers: &ChannelServers,
    rows: &mut Rows<T>,
    word: u16,
    mix: u16,
) -> Result<StartPlan, NoMemory>
    requires { MayPlan options.now servers.now rows.old }
    ensures plan { IfOk result (IsPlan options.now servers.now rows.old word mix) }
    ensures err { OnErr result (MayBegin rows.old word) }
    ensures same { rows.new ≡ rows.old }
{
    let Some(idle) = rows.find_idle() else {
        return Ok(StartPlan::NoLeg);
    };
    let Some(id) = rows.free_id(word) else {
        return Ok(StartPlan::NoIdentifier);
    };
    let server = servers.choose(options, idle.leg.forced);
    let link = choose_link(rows, idle.leg.over_tcp, server, servers.greatest_link);
    let bits = bits_for(options, link, mix);
    let wait = wait_of(options, idle.leg.spent, servers.in_use(options));
    let address = address_of(servers.list.as_slice(), server);
    let message = message_for(
        alloc,
        options,
        &rows.row(idle.index).lookup(idle.is_second).question,
        id,
        bits,
        idle.leg.has_opt,
    )?;
    Ok(StartPlan::Begins(Planned {
        idle,
        server,
        address,
        link,
        id,
        mix: bits,
        wait,
        message,
    }))
}

/// The link of an attempt to this server: 0 over UDP.
fn choose_link<T: Token>(rows: &Rows<T>, over_tcp: bool, server: u32, greatest: u64) -> u64
    requires fits { greatest + 1 < 2 ^ 64 }
    requires one { HasOneLink server rows.now }
    ensures { result ≡ link_with rows.now over_tcp server greatest }
{
    if !over_tcp {
        return 0;
    }
    match rows.tcp_link(server) {
        Some(link) => link,
        None => greatest + 1,
    }
}

/// The bits for the case of a query's letters, where it is drawn: over UDP, where the channel is set so.
fn bits_for(options: &Options, link: u64, mix: u16) -> Option<u16>
    ensures { result ≡ then_some (options.now.flags.mix && (link == 0)) mix }
{
    if options.flags().mix && link == 0 {
        Some(mix)
    } else {
        None
    }
}

/// Where the server of this key listens.
fn address_of(list: &[ServerKey], key: u32) -> ServerAddr
    requires { IsTrue (has_key key list.now) }
    ensures { address_of key list.now ≡ Some result }
{
    match list {
        [] => unreachable!(),
        [server, rest @ ..] => {
            if server.key == key {
                server.address
            } else {
                address_of(rest, key)
            }
        }
    }
}

/// The bytes of a query for a question, its letters in the case of these bits if there are some.
#[inline(always)]
fn message_for(
    alloc: Global,
    options: &Options,
    question: &Question,
    id: u16,
    mix: Option<u16>,
    has_opt: bool,
) -> Result<Bytes, NoMemory>
    ensures { IfOk result (λ bytes. bytes ≡ query_written options.now id mix has_opt question.now) }
{
    let norecurse = options.flags().norecurse;
    let edns = if has_opt {
        Some(options.edns_size())
    } else {
        None
    };
    match mix {
        None => query_bytes(alloc, question, id, norecurse, edns),
        Some(bits) => {
            let asked = Question {
                name: question.name.mixed(alloc, bits)?,
                kind: question.kind,
                class: question.class,
            };
            query_bytes(alloc, &asked, id, norecurse, edns)
        }
    }
}
