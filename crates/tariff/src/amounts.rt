// Units by kind (unit-2).
ghost use Rattle.std.specs.Prelude.{◌≡◌, ◌+◌, ◌-◌, ◌*◌, ◌/◌, ◌<◌};
ghost use Rattle.tariff.specs.Units.{◌⊕◌, ◌⊗◌, only, of_kind, fits, no_units, Adds, Multiplies};

use super::{Kind, Units};

// n units of one kind.
pub fn only_of(k: Kind, n: u64) -> Units
    ensures { result ≡ only k n }
{
    let none = Units::default();
    match k {
        Kind::Data => Units { kb: n, ..none },
        Kind::Outgoing => Units {
            outgoing: n,
            ..none
        },
        Kind::Incoming => Units {
            incoming: n,
            ..none
        },
        Kind::Sms => Units { sms: n, ..none },
    }
}

// The units of one kind.
pub fn amount(k: Kind, u: Units) -> u64
    ensures { result ≡ of_kind k u }
{
    match k {
        Kind::Data => u.kb,
        Kind::Outgoing => u.outgoing,
        Kind::Incoming => u.incoming,
        Kind::Sms => u.sms,
    }
}

// Is u at most v in each kind?
// kept: four comparisons are shorter than a function that joins the kinds
pub fn units_fit(u: Units, v: Units) -> bool
    ensures { result ≡ fits u v }
{
    (u.kb <= v.kb) & (u.outgoing <= v.outgoing) & (u.incoming <= v.incoming) & (u.sms <= v.sms)
}

// Is u without units of any kind?
pub fn is_none(u: Units) -> bool
    ensures { result ≡ no_units u }
{
    u == Units::default()
}

// Two numbers of each kind made into one.
pub fn kind_by_kind<F: Fn(u64, u64) -> u64>(f: F, u: Units, v: Units) -> Units
    requires kb { F.pre f u.kb v.kb }
    requires outgoing { F.pre f u.outgoing v.outgoing }
    requires incoming { F.pre f u.incoming v.incoming }
    requires sms { F.pre f u.sms v.sms }
    ensures kb { F.post f u.kb v.kb result.kb }
    ensures outgoing { F.post f u.outgoing v.outgoing result.outgoing }
    ensures incoming { F.post f u.incoming v.incoming result.incoming }
    ensures sms { F.post f u.sms v.sms result.sms }
{
    Units {
        kb: f(u.kb, v.kb),
        outgoing: f(u.outgoing, v.outgoing),
        incoming: f(u.incoming, v.incoming),
        sms: f(u.sms, v.sms),
    }
}

// The sum, kind by kind.
pub fn plus(u: Units, v: Units) -> Units
    requires { Adds u v }
    ensures { result ≡ u ⊕ v }
{
    kind_by_kind(|m, n| m + n, u, v)
}

// The product, kind by kind: units at a rate for each kind.
pub fn times(rate: Units, u: Units) -> Units
    requires { Multiplies rate u }
    ensures { result ≡ rate ⊗ u }
{
    kind_by_kind(|m, n| m * n, rate, u)
}
