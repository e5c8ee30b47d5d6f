// A family box in the caller's memory.
ghost use Rattle.std.specs.Prelude.{◌≡◌};
ghost use Rattle.meter.specs.Boxes.{box_call, is_box_call};
ghost use Rattle.meter.specs.Boxes.{box_code, box_numbers, box_cards, box_laid};
ghost use Rattle.meter.specs.Boxes.{box_open_code, box_open_numbers, box_open_cards};

use cards::Card;

// Opens a box under a plan of seven numbers for the cards with their allowances. Refusals 0, for another count of
// numbers of the account, 1, 17, 18, 2, 19 and 20.
#[unsafe(no_mangle)]
pub extern "C" fn meter_box_open(account: &mut [u64], cards: &mut [Card], plan: &[u64]) -> u64
    ensures { (result ≡ box_open_code account.old cards.old plan.now)
        × (account.new ≡ box_open_numbers account.old cards.old plan.now)
        × (cards.new ≡ box_open_cards account.old cards.old plan.now) }
{
    meter::boxes::meter_box_open(account, cards, plan)
}

// A call on a box: 0 register at a place, 1 use of n units of a kind by a card, 2 top-up of n points, 3 next day, 4
// Afford of a kind by a card. Refusals 0, 19, those of the account's call and, before 6, 20.
#[unsafe(no_mangle)]
pub extern "C" fn meter_box_call(
    account: &mut [u64],
    cards: &mut [Card],
    call: u64,
    card: usize,
    which: u64,
    n: u64,
    answer: &mut [u64],
) -> u64
    ensures { (result ≡ box_code account.old cards.old (box_call call card which n)
        (is_box_call call which answer.old))
        × (account.new ≡ box_numbers account.old cards.old (box_call call card which n)
        (is_box_call call which answer.old))
        × (cards.new ≡ box_cards account.old cards.old (box_call call card which n)
        (is_box_call call which answer.old))
        × (answer.new ≡ box_laid account.old cards.old (box_call call card which n)
        (is_box_call call which answer.old) answer.old) }
{
    meter::boxes::meter_box_call(account, cards, call, card, which, n, answer)
}
