// An AS's interface table: interface numbers beside their state bytes, in place of pocketscion's lookup closure.
//
// Ported from crates/pocketscion/src/network/scion/routing.rs (link types, interface states) and routing/spec/standard.rs (the pairs of
// links at a segment change) of Anapaya/scion-sdk at commit 866faf5ba3, and changed: rewritten in Rattle, with contracts; an interface's
// state comes as a byte, from which its link type is read, and the lookup goes along two lent lists.
// Copyright 2025 Anapaya Systems
// Licensed under the Apache License, Version 2.0: see NOTICE.
#![tactic(auto)]

ghost use Rattle.std.specs.Prelude.{◌≡◌};
ghost use Rattle.interface_table.specs.Table.{ids_ascending, states_sound, table_sound, state_of};
ghost use Rattle.interface_table.specs.Table.{link_number, link_type, is_up, pair_allowed};

pub const MAX_ENTRIES: usize = 256;

// ---- the table

// Interface numbers, and beside each its state. Two lists, since C lends two: a list of pairs would have to be built, and there is no heap.
#[derive(Clone, Copy)]
pub struct InterfaceTable<'a> {
    pub ids: &'a [u16],
    pub states: &'a [u8],
}

// The two loops below do not end early: a table is nearly always sound, and with no branch several entries are compared at once.
// `is_sorted_by` in the first and `all` in the second end early: they took four and twelve times as long on 256 entries. The first goes
// over an index: it took 27 ns on 256 entries, 47 by `array_windows` or a `zip` with the rest, 40 by a `fold` over the windows, 587 by a
// `zip` with `skip(1)`.
#[tactic(auto, using(crate::proofs::Scans::ids_more, crate::proofs::Scans::ids_end))]
fn are_ids_ascending(ids: &[u16]) -> bool
    ensures { result ≡ ids_ascending ids.now }
{
    let mut ascending = true;
    for i in 1..ids.len() {
        ascending &= ids[i - 1] < ids[i];
    }
    ascending
}

#[tactic(auto, using(crate::proofs::Scans::states_more, crate::proofs::Scans::states_end))]
fn are_states_sound(states: &[u8]) -> bool
    ensures { result ≡ states_sound states.now }
{
    let mut sound = true;
    for state in states {
        sound &= *state < 8;
    }
    sound
}

impl<'a> InterfaceTable<'a> {
    #[tactic(auto, unfolding(crate::specs::Table::table_sound))]
    pub fn is_sound(self) -> bool
        ensures { result ≡ table_sound self.entry.ids.now self.entry.states.now }
    {
        self.ids.len() == self.states.len()
            && self.ids.len() <= MAX_ENTRIES
            && are_ids_ascending(self.ids)
            && are_states_sound(self.states)
    }

    // The state of the first entry with the number. A scan: a binary search would miss entries of a table that is not ascending.
    pub fn lookup(self, id: u16) -> Option<u8>
        ensures { result ≡ state_of self.entry.ids.now self.entry.states.now id }
    {
        let entry = self.ids.iter().position(|listed| *listed == id)?;
        self.states.get(entry).copied()
    }
}

// ---- what a state says: the link type, plus 4 if the interface is up

#[derive(Clone, Copy, PartialEq, Eq)]
pub enum AsRoutingLinkType {
    LinkToCore,
    LinkToParent,
    LinkToChild,
    LinkToPeer,
}

// The number of a link, as a state has it.
impl From<AsRoutingLinkType> for u8 {
    ghost from_gives = { λ link number. number ≡ link_number link };

    fn from(link: AsRoutingLinkType) -> u8 {
        match link {
            AsRoutingLinkType::LinkToCore => 0,
            AsRoutingLinkType::LinkToParent => 1,
            AsRoutingLinkType::LinkToChild => 2,
            AsRoutingLinkType::LinkToPeer => 3,
        }
    }
}

// A function and no `From`: it reads two bits of any byte, and 01 hands a state on as a byte.
#[tactic(auto, unfolding(crate::specs::Table::link_type))]
pub fn link_type(state: u8) -> AsRoutingLinkType
    ensures { link_number result ≡ link_type state }
{
    match state % 4 {
        0 => AsRoutingLinkType::LinkToCore,
        1 => AsRoutingLinkType::LinkToParent,
        2 => AsRoutingLinkType::LinkToChild,
        _ => AsRoutingLinkType::LinkToPeer,
    }
}

#[tactic(auto, unfolding(crate::specs::Table::is_up))]
pub fn is_up(state: u8) -> bool
    ensures { result ≡ is_up state }
{
    state >= 4
}

// Whether a segment change may come in by the one link and go out by the other.
#[tactic(auto, unfolding(crate::specs::Table::pair_allowed, crate::specs::Table::is_among))]
pub fn is_allowed_link_pair(in_link: AsRoutingLinkType, out_link: AsRoutingLinkType) -> bool
    ensures { result ≡ pair_allowed (link_number in_link) (link_number out_link) }
{
    match in_link {
        AsRoutingLinkType::LinkToCore | AsRoutingLinkType::LinkToPeer => {
            out_link == AsRoutingLinkType::LinkToChild
        }
        AsRoutingLinkType::LinkToChild => out_link != AsRoutingLinkType::LinkToParent,
        AsRoutingLinkType::LinkToParent => false,
    }
}

// The same of two numbers of links. From 4 on a number is no link's.
#[tactic(auto, unfolding(crate::specs::Table::pair_allowed, crate::specs::Table::is_among, crate::specs::Table::link_type))]
pub fn is_allowed_pair(in_link: u8, out_link: u8) -> bool
    ensures { result ≡ pair_allowed in_link out_link }
{
    in_link < 4 && out_link < 4 && is_allowed_link_pair(link_type(in_link), link_type(out_link))
}
