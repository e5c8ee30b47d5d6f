// The cards of a family box, a lent list of records (family-1 to family-6, form-9). Sums are held at one more than any
// meter counts to, so that any numbers and any count of cards will do.
#![tactic(auto)]

ghost use Rattle.std.specs.Prelude.{◌≡◌, map, ◌+◌, min, set};
ghost use Rattle.cards.specs.Cards.{card_sound, allowance_fits};
ghost use Rattle.cards.specs.Survey.{start, survey_with, survey_of, held_sum, held_used, renewed, changed};

use tariff::Units;

// A card's own lifetime units, its kB of the month at every place, and the kB that it may use in a month. Programs in C
// have it as meter_card.
#[repr(C)]
#[derive(Clone, Copy, Default)]
pub struct Card {
    pub lifetime: Units,
    pub monthly: u64,
    pub allowance: u64,
}

// What one pass over the cards finds: how many they are, up to 17; their lifetime units together; is each sound; is
// each allowance in range; and the card at a place, once it is found, which `ahead` cards come before until then.
#[derive(Clone, Copy)]
pub struct Survey {
    pub count: u64,
    pub total: Units,
    pub ordered: bool,
    pub allowed: bool,
    pub ahead: usize,
    pub card: Option<Card>,
}

// Where all cards are renewed, each begins a month or, where it is new, its life.
#[derive(Clone, Copy)]
pub enum Renewal {
    Month,
    Life,
}

// What becomes of the cards: the one at a place is the card given; then, where there is a renewal, all are renewed.
#[derive(Clone, Copy)]
pub struct Change {
    pub place: usize,
    pub card: Card,
    pub renewal: Option<Renewal>,
}

// A pass that has seen no card, and looks for the one at place i.
pub fn start_at(i: usize) -> Survey
    ensures { result ≡ start i }
{
    Survey {
        count: 0,
        total: Units::default(),
        ordered: true,
        allowed: true,
        ahead: i,
        card: None,
    }
}

// The sum, held.
fn hold(a: u64, b: u64) -> u64
    ensures { result ≡ min (a + b) 1000000000001 }
{
    a.saturating_add(b).min(1000000000001)
}

// The sum, kind by kind, held.
fn hold_units(u: Units, v: Units) -> Units
    ensures { result ≡ held_sum u v }
{
    tariff::amounts::kind_by_kind(hold, u, v)
}

fn in_range(allowance: u64) -> bool
    ensures { result ≡ allowance_fits allowance }
{
    allowance <= 1000000000000
}

// Are the card's monthly kB within its lifetime kB and its allowance, and the allowance in range?
fn card_fits(c: Card) -> bool
    ensures { result ≡ card_sound c }
{
    c.monthly <= c.lifetime.kb && c.monthly <= c.allowance && in_range(c.allowance)
}

// The pass with one card more.
#[tactic(auto, unfolding(crate::specs::Survey::survey_with))]
pub fn add_card(s: Survey, c: Card) -> Survey
    ensures { result ≡ survey_with s c }
{
    Survey {
        count: s.count.saturating_add(1).min(17),
        total: hold_units(s.total, c.lifetime),
        ordered: s.ordered && card_fits(c),
        allowed: s.allowed && in_range(c.allowance),
        ahead: if s.card.is_some() {
            s.ahead
        } else {
            s.ahead.saturating_sub(1)
        },
        card: s.card.or((s.ahead == 0).then_some(c)),
    }
}

// The card after a use of the units, its sums held.
pub fn used_by(c: Card, u: Units) -> Card
    ensures { result ≡ held_used c u }
{
    Card {
        lifetime: hold_units(c.lifetime, u),
        monthly: hold(c.monthly, u.kb),
        ..c
    }
}

// The card at the beginning of a month or of its life.
fn renew(c: Card, renewal: Renewal) -> Card
    ensures { result ≡ renewed renewal c }
{
    match renewal {
        Renewal::Month => Card { monthly: 0, ..c },
        Renewal::Life => Card {
            allowance: c.allowance,
            ..Card::default()
        },
    }
}

// A pass over all cards.
#[tactic(auto, unfolding(crate::specs::Survey::survey_of))]
pub fn survey_all(cards: &[Card], from: Survey) -> Survey
    ensures { result ≡ survey_of from cards.now }
{
    cards.iter().fold(from, |s, c| add_card(s, *c))
}

// The card at place i is changed, and no other; past the end none is.
pub fn put(cards: &mut [Card], i: usize, c: Card)
    ensures { cards.new ≡ set cards.old i c }
{
    // kept: after a write through get_mut(i), a proof knows the slice's length and no card
    if i < cards.len() {
        cards[i] = c;
    }
}

// Every card at the beginning of a month or of its life.
pub fn renew_all(cards: &mut [Card], renewal: Renewal)
    ensures { cards.new ≡ map (renewed renewal) cards.old }
{
    for card in cards.iter_mut() {
        *card = renew(*card, renewal);
    }
}

// What a call makes of the cards.
#[tactic(auto, unfolding(crate::specs::Survey::changed))]
pub fn settle(cards: &mut [Card], change: Change)
    ensures { cards.new ≡ changed change cards.old }
{
    put(cards, change.place, change.card);
    if let Some(renewal) = change.renewal {
        renew_all(cards, renewal);
    }
}
