// The first days of the months, and the question whether a day is one of them. Day 0 is 1 January 2022.
#![tactic(auto)]

pub mod claims;

ghost use Rattle.std.specs.Prelude.{◌≡◌};
ghost use Rattle.calendar.specs.Calendar.{starts_month};

// The first day of each month from January 2022 to December 2032.
const MONTH_STARTS: [u64; 132] = [
    0, 31, 59, 90, 120, 151, 181, 212, 243, 273, 304, 334, 365, 396, 424, 455, 485, 516, 546, 577,
    608, 638, 669, 699, 730, 761, 790, 821, 851, 882, 912, 943, 974, 1004, 1035, 1065, 1096, 1127,
    1155, 1186, 1216, 1247, 1277, 1308, 1339, 1369, 1400, 1430, 1461, 1492, 1520, 1551, 1581, 1612,
    1642, 1673, 1704, 1734, 1765, 1795, 1826, 1857, 1885, 1916, 1946, 1977, 2007, 2038, 2069, 2099,
    2130, 2160, 2191, 2222, 2251, 2282, 2312, 2343, 2373, 2404, 2435, 2465, 2496, 2526, 2557, 2588,
    2616, 2647, 2677, 2708, 2738, 2769, 2800, 2830, 2861, 2891, 2922, 2953, 2981, 3012, 3042, 3073,
    3103, 3134, 3165, 3195, 3226, 3256, 3287, 3318, 3346, 3377, 3407, 3438, 3468, 3499, 3530, 3560,
    3591, 3621, 3652, 3683, 3712, 3743, 3773, 3804, 3834, 3865, 3896, 3926, 3957, 3987,
];

// Is the day the first of a month? No month has more than 31 days, so each of the first `day / 31` months begins before
// the day. The search starts after them, and ends at the first month that does not begin before the day.
pub fn starts_month(day: u64) -> bool
    ensures { result ≡ starts_month day }
{
    for month in (day / 31) as usize..132 {
        let first = MONTH_STARTS[month];
        if first >= day {
            return first == day;
        }
    }
    false
}
