// Who may do what: the ancestor that each event presents and what it gives, the target of each revoke, lines, and which places are
// sound.

#![tactic(auto)]

ghost use Rattle.std.specs.Prelude.{◌≡◌, ℕ, ◌<◌, map, eqb, get_or};
ghost use mathlib.Core.List.{Memᴰ};
ghost use Rattle.lists.specs.Tests.{any_of};
ghost use Rattle.model.specs.Verdicts.{given_by, has, within, right_for, covers_body};
ghost use Rattle.ordering.specs.Named.{number_of_spot, held_place};
ghost use Rattle.ordering.specs.Order.{Ordered};
ghost use Rattle.authority.specs.Found.{place_number, ancestor_by, given_from, given_at, target_by, NamedAncestors};
ghost use Rattle.authority.specs.Lines.{line_from};
ghost use Rattle.authority.specs.Sound.{right_number, asked_number, parent_sound, parents_sound, permits_by, target_suits_at, sound_at, SoundTable};

use event::{Body, Grant, Parsed};
use ordering::{Named, Spot};
use tables::BitRow;

// What P gives, and the place where it stands.
#[derive(Clone, Copy)]
pub struct Given {
    pub place: u8,
    pub grant: Grant,
}

// A right that an event can ask. A grant's rights are the sum of their numbers.
#[derive(Clone, Copy)]
enum Right {
    Patch = 1,
    Grant = 2,
    Revoke = 4,
}

// Of the events held, by place: where the ancestor stands that each presents, and the grant among its ancestors that a revoke
// names.
#[derive(Clone, Copy)]
pub struct Lines<'a> {
    pub store: &'a [u8],
    pub named: &'a Named,
    pub presented: [Option<u8>; 256],
    pub targets: [Option<u8>; 256],
}

// A number as a place, where it is one.
fn held_place(p: u16) -> Option<u8>
    ensures { result ≡ held_place p }
{
    u8::try_from(p).ok()
}

// Finds the id j that the event at place k names among its ancestors. A row has no bit for what is no place.
#[tactic(auto, unfolding(tables::specs::Bits::bit_at, tables::specs::Bits::bit_in))]
fn find_ancestor(named: &Named, rows: &[BitRow; 256], k: u8, j: u8) -> Option<u8>
    requires { j < 5 }
    ensures { result ≡ ancestor_by named.now rows.now k j }
{
    let p = named.at(k, j).place()?;
    rows[usize::from(k)].has(u16::from(p)).then_some(p)
}

// What the ancestor at place p gives: the creator rights 7 to its author, a grant what it says.
fn given_by(p: u8, e: Parsed) -> Option<Given>
    ensures { result ≡ given_from p (given_by e.author e.body) }
{
    match e.body {
        Body::Create => {
            let grant = Grant {
                rights: 7,
                subject: e.author,
            };
            Some(Given { place: p, grant })
        }
        Body::Grant(grant) => Some(Given { place: p, grant }),
        _ => None,
    }
}

// Finds the grant that the revoke at place k names, among its ancestors; another kind names no target.
#[tactic(auto, unfolding(event::specs::Contents::contents_of))]
fn find_target(store: &[u8], named: &Named, rows: &[BitRow; 256], k: u8) -> Option<u8>
    ensures { result ≡ target_by store.now named.now rows.now k }
{
    let t = find_ancestor(named, rows, k, event::TARGET)?;
    match event::read(event::event_at(store, u16::from(t))).body {
        Body::Grant(_) => Some(t),
        _ => None,
    }
}

// Whether rights r have the right q.
fn has_right(r: u8, q: Right) -> bool
    ensures { result ≡ has r (right_number q) }
{
    r / (q as u8) % 2 == 1
}

// Whether the rights f lie within the rights g.
fn lies_within(f: u8, g: u8) -> bool
    ensures { result ≡ within f g }
{
    [Right::Patch, Right::Grant, Right::Revoke]
        .iter()
        .all(|q| !has_right(f, *q) || has_right(g, *q))
}

// The right that an event asks. A create asks none: it presents nothing.
fn right_for(body: Body) -> Option<Right>
    ensures { asked_number result ≡ right_for body }
{
    match body {
        Body::Create => None,
        Body::Grant(_) => Some(Right::Grant),
        Body::Revoke => Some(Right::Revoke),
        Body::Join(_) | Body::Unplug(_) => Some(Right::Patch),
    }
}

// Whether a grant's rights lie within those of P.
#[tactic(auto, unfolding(model::specs::Verdicts::covers_body, model::specs::Verdicts::covers))]
fn covers_body(grant: Grant, body: Body) -> bool
    ensures { result ≡ covers_body grant body }
{
    match body {
        Body::Grant(given) => lies_within(given.rights, grant.rights),
        _ => true,
    }
}

// Whether what P gives permits an event.
#[tactic(auto, using(crate::proofs::Answers::asks), unfolding(crate::specs::Sound::permits_by))]
fn permits(e: Parsed, grant: Grant) -> bool
    ensures { result ≡ permits_by e.author e.body grant }
{
    grant.subject == e.author
        && right_for(e.body).is_some_and(|q| has_right(grant.rights, q))
        && covers_body(grant, e.body)
}

// Whether a parent is sound, where there is one.
fn parent_sound(sound: &[bool; 256], parent: Spot) -> bool
    ensures { result ≡ parent_sound sound.now (number_of_spot parent) }
{
    match parent {
        Spot::Unnamed => true,
        Spot::Missing => false,
        Spot::At(p) => tables::entry(sound, p, false),
    }
}

// Whether the parents of the event at place k are sound.
fn parents_sound(named: &Named, sound: &[bool; 256], k: u8) -> bool
    ensures { result ≡ parents_sound named.now sound.now k }
{
    named
        .parents(k)
        .iter()
        .all(|parent| parent_sound(sound, *parent))
}

impl<'a> Lines<'a> {
    // Lines by tables of any numbers; one past 255 is no place. What `authorize` finds by these lines is what the tables themselves say, by
    // `sound_of_numbers` (specs/Numbers).
    pub fn of(
        store: &'a [u8],
        named: &'a Named,
        presented: &[u16; 256],
        targets: &[u16; 256],
    ) -> Lines<'a>
        ensures lent { (result.store.now ≡ store.now) × (result.named.now ≡ named.now) }
        ensures read { (result.presented ≡ map held_place presented.now) × (result.targets ≡ map held_place targets.now) }
    {
        Lines {
            store,
            named,
            presented: presented.map(held_place),
            targets: targets.map(held_place),
        }
    }

    // For each listed place, where the ancestor stands that it presents, and the grant among its ancestors that a revoke names.
    // Kept, no plainer: casts of places to u8, here and in `authorize`. They are proved to fit, and try_from would have an error that never comes.
    #[tactic(auto, using(tables::specs::Filling::listed_low, crate::proofs::Listed::named_none))]
    pub fn find(store: &'a [u8], named: &'a Named, order: &[u16], rows: &[BitRow; 256]) -> Lines<'a>
        requires { (k : ℕ) → Memᴰ k order.now → k < 256 }
        ensures lent { (result.store.now ≡ store.now) × (result.named.now ≡ named.now) }
        ensures found { NamedAncestors store.now named.now rows.now order.now
            (map place_number result.presented) (map place_number result.targets) }
    {
        let mut presented = [None; 256];
        let mut targets = [None; 256];
        for &place in order {
            let k = place as u8;
            presented[usize::from(k)] = find_ancestor(named, rows, k, event::PRESENTED);
            targets[usize::from(k)] = find_target(store, named, rows, k);
        }
        Lines {
            store,
            named,
            presented,
            targets,
        }
    }

    // What the event at place k presents, where that gives a grant.
    #[tactic(auto, unfolding(crate::specs::Found::given_at, event::specs::Contents::contents_of))]
    fn given(&self, k: u8) -> Option<Given>
        ensures { result ≡ given_at self.now.store.now (get_or (map place_number self.now.presented) k 0) }
    {
        let p = self.presented[usize::from(k)]?;
        given_by(p, event::read(event::event_at(self.store, u16::from(p))))
    }

    // Whether the sought place is on the line of a place: the question is passed to the place that it presents, one step nearer the
    // creator. `left` bounds the steps to the creator and falls at each call.
    #[tactic(auto, using(crate::proofs::Answers::no_steps, crate::proofs::Answers::no_more, crate::proofs::Answers::here, crate::proofs::Answers::onward))]
    fn on_line(&self, left: u16, sought: u8, place: u8) -> bool
        ensures { result ≡ any_of (eqb sought) (line_from (map place_number self.now.presented) left place) }
    {
        if left == 0 {
            return false;
        }
        let Some(p) = tables::entry(&self.presented, u16::from(place), None) else {
            return false;
        };
        sought == p || self.on_line(left - 1, sought, p)
    }

    // Whether the target of the event at place k suits. A revoke has one, and the place p of P is on its line; another kind names
    // none. A line has at most 256 places.
    #[tactic(auto, unfolding(crate::specs::Sound::target_suits_at))]
    fn target_suits(&self, k: u8, body: Body, p: u8) -> bool
        ensures { result ≡ target_suits_at (map place_number self.now.presented) body p
            (get_or (map place_number self.now.targets) k 0) }
    {
        match body {
            Body::Revoke => match self.targets[usize::from(k)] {
                Some(t) => self.on_line(store::PLACES, p, t),
                None => false,
            },
            _ => true,
        }
    }

    // Whether the event at place k is sound; `sound` says which of its parents are.
    #[tactic(auto, using(crate::proofs::Answers::given_place), unfolding(crate::specs::Sound::sound_at, event::specs::Contents::contents_of))]
    fn is_sound(&self, sound: &[bool; 256], k: u8) -> bool
        ensures { result ≡ sound_at self.now.store.now self.now.named.now (map place_number self.now.presented)
            (map place_number self.now.targets) sound.now k }
    {
        if k == 0 {
            return true;
        }
        if !parents_sound(self.named, sound, k) {
            return false;
        }
        let Some(given) = self.given(k) else {
            return false;
        };
        let e = event::read(event::event_at(self.store, u16::from(k)));
        permits(e, given.grant) && self.target_suits(k, e.body, given.place)
    }

    // Which listed places are sound. The places stand behind their parents.
    #[tactic(auto, using(tables::specs::Filling::listed_low))]
    pub fn authorize(&self, order: &[u16]) -> [bool; 256]
        requires { Ordered self.now.named.now order.now }
        ensures { SoundTable self.now.store.now self.now.named.now (map place_number self.now.presented)
            (map place_number self.now.targets) order.now result }
    {
        let mut sound = [false; 256];
        for &place in order {
            let k = place as u8;
            let s = self.is_sound(&sound, k);
            sound[usize::from(k)] = s;
        }
        sound
    }
}
