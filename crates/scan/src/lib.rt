// A lookup with no store, for the service laptop: a scan through a lent list of rule records, which may hold any numbers. It copies no list and changes no record.
#![tactic(auto)]

ghost use Rattle.std.specs.Prelude.{◌≡◌};
ghost use Rattle.ipv4.specs.Rule.{given};
ghost use Rattle.header.specs.Header.{values_in};
ghost use Rattle.scan.specs.Scan.{holds_packet, scan_values, precedes_lead, stepped, winner_of};

use header::Packet;
use ipv4::Rule;
use refusal::Refusal;

// What a scan answers: 0, and the number and the action of the rule that decides; or a refusal's number and zeros.
#[repr(C)]
#[derive(Clone, Copy)]
pub struct Winner {
    pub answer: u32,
    pub rule: u32,
    pub action: u32,
}

// The rule that leads: the number and the action that a scan would answer now.
#[derive(Clone, Copy)]
pub struct Lead {
    pub number: u32,
    pub action: u32,
}

impl Winner {
    // What is answered: this is the one place where a refusal becomes its number, and zeros.
    fn of(decided: Result<Lead, Refusal>) -> Winner
        ensures { result ≡ winner_of decided }
    {
        match decided {
            Ok(lead) => Winner {
                answer: 0,
                rule: lead.number,
                action: lead.action,
            },
            Err(refusal) => Winner {
                answer: refusal.number(),
                rule: 0,
                action: 0,
            },
        }
    }
}

// Whether the six ranges of a rule all hold the packet's values.
fn holds(packet: Packet, rule: &Rule) -> bool
    ensures { result ≡ holds_packet packet (given rule.now) }
{
    let values = packet.values();
    (0..6).all(|i| (rule.low[i]..=rule.high[i]).contains(&values[i]))
}

// Whether a number goes before the leader's: any does where no rule leads.
fn precedes(number: u32, lead: Option<Lead>) -> bool
    ensures { result ≡ precedes_lead number lead }
{
    match lead {
        None => true,
        Some(lead) => number < lead.number,
    }
}

// Which rule leads with a record more: a holder takes the lead if its number goes before the leader's.
#[tactic(auto, unfolding(crate::specs::Scan::stepped))]
fn step(packet: Packet, lead: Option<Lead>, rule: &Rule) -> Option<Lead>
    ensures { result ≡ stepped packet lead rule.now }
{
    if holds(packet, rule) && precedes(rule.number, lead) {
        return Some(Lead {
            number: rule.number,
            action: rule.action,
        });
    }
    lead
}

// The rule that decides: the holder of least number, of equal numbers the earlier one, and where there is none the default.
fn decide(records: &[Rule], default_action: u32, packet: Packet) -> Result<Lead, Refusal>
    ensures { winner_of result ≡ scan_values records.now default_action packet.destination packet.source packet.protocol packet.destination_port packet.source_port packet.portless }
{
    let mut lead = None;
    for rule in records {
        lead = step(packet, lead, rule);
    }
    if !ipv4::right(packet) {
        return Err(Refusal::ValueTooHigh);
    }
    Ok(lead.unwrap_or(Lead {
        number: 65535,
        action: default_action,
    }))
}

// What the scan of a packet's values through the records answers.
pub fn scan(records: &[Rule], default_action: u32, packet: Packet) -> Winner
    ensures { result ≡ scan_values records.now default_action packet.destination packet.source packet.protocol packet.destination_port packet.source_port packet.portless }
{
    Winner::of(decide(records, default_action, packet))
}
