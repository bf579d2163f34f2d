//! The distance of two places, in whole numbers: half the sine from a table, and the test of a range.
#![tactic(auto)]

ghost use Rattle.std.specs.Prelude.{◌≡◌, ℕ, ℤ, ◌<◌, ◌≤◌, ◌+◌, ◌*◌, ◌^◌, ◌-ℤ◌, ◌≤ℤ◌, pos, negsuc, slice_index, IsTrue, ◌↔◌, unsigned_abs};
ghost use Rattle.fixed_distance.specs.Distance.{HalfSineRises, arc_of, cosine_of, half_sine_of, haversine_of, is_within, latitude_gap, longitude_gap, sines, square};

use aprs_base::Place;

/// A million times the sine of each whole number of degrees from 0 to 90.
static SINES: [u32; 91] = [
    0, 17_452, 34_899, 52_336, 69_756, 87_156, 104_528, 121_869, 139_173, 156_434, 173_648,
    190_809, 207_912, 224_951, 241_922, 258_819, 275_637, 292_372, 309_017, 325_568, 342_020,
    358_368, 374_607, 390_731, 406_737, 422_618, 438_371, 453_990, 469_472, 484_810, 500_000,
    515_038, 529_919, 544_639, 559_193, 573_576, 587_785, 601_815, 615_661, 629_320, 642_788,
    656_059, 669_131, 681_998, 694_658, 707_107, 719_340, 731_354, 743_145, 754_710, 766_044,
    777_146, 788_011, 798_636, 809_017, 819_152, 829_038, 838_671, 848_048, 857_167, 866_025,
    874_620, 882_948, 891_007, 898_794, 906_308, 913_545, 920_505, 927_184, 933_580, 939_693,
    945_519, 951_057, 956_305, 961_262, 965_926, 970_296, 974_370, 978_148, 981_627, 984_808,
    987_688, 990_268, 992_546, 994_522, 996_195, 997_564, 998_630, 999_391, 999_848, 1_000_000,
];

/// The table's number at `k`.
fn sine_at(k: u32) -> u32
    requires { k ≤ 90 }
    ensures { result ≡ slice_index sines k }
{
    SINES[k as usize]
}

/// Two million million times the sine of half of `x` millionths of a degree.
#[tactic(auto, using(crate::proofs::Line::line_rules))]
pub fn half_sine(x: u32) -> u64
    requires { x ≤ 180000000 }
    ensures value { result ≡ half_sine_of x }
    ensures bound { result ≤ 2000000000000 }
{
    let k = x / 2_000_000;
    if k == 90 {
        return 2_000_000_000_000;
    }
    let low = sine_at(k);
    let rise = sine_at(k + 1) - low;
    u64::from(low) * 2_000_000 + u64::from(rise) * u64::from(x % 2_000_000)
}

/// A greater arc has a greater sine of its half.
pub fn half_sine_rises()
    ensures { HalfSineRises }
{}

/// A million times the cosine of a latitude.
#[tactic(auto, unfolding(crate::specs::Distance::cosine_of))]
fn cosine(lat: i32) -> u64
    requires { unsigned_abs lat ≤ 90000000 }
    ensures value { result ≡ cosine_of lat }
    ensures bound { result ≤ 1000000 }
{
    half_sine(180_000_000 - 2 * lat.unsigned_abs()) / 2_000_000
}

/// How far two longitudes are apart, by the shorter way round the globe.
fn around(a: i32, b: i32) -> u32
    requires a_in_range { unsigned_abs a ≤ 180000000 }
    requires b_in_range { unsigned_abs b ≤ 180000000 }
    ensures value { result ≡ longitude_gap a b }
    ensures bound { result ≤ 180000000 }
{
    let gap = a.abs_diff(b);
    if gap > 180_000_000 {
        360_000_000 - gap
    } else {
        gap
    }
}

/// The arc of so many kilometres, in millionths of a degree, at most half of the globe.
fn arc(km: u32) -> u32
    requires { km ≤ 99999 }
    ensures value { result ≡ arc_of km }
    ensures bound { result ≤ 180000000 }
{
    (u64::from(km) * 1_000_000_000 / 111_195).min(180_000_000) as u32
}

/// The square of half a sine.
fn square_of(n: u64) -> u128
    requires { n ≤ 2000000000000 }
    ensures value { result ≡ square n }
    ensures bound { result ≤ 4000000000000000000000000 }
{
    u128::from(n) * u128::from(n)
}

/// The product of two cosines.
fn narrowed(a: u64, b: u64) -> u128
    requires a_in_range { a ≤ 1000000 }
    requires b_in_range { b ≤ 1000000 }
    ensures value { result ≡ a * b }
    ensures bound { result ≤ 1000000000000 }
{
    u128::from(a * b)
}

/// The product of two cosines and a square.
fn scaled(cosines: u128, square: u128) -> u128
    requires cosines_in_range { cosines ≤ 1000000000000 }
    requires square_in_range { square ≤ 4000000000000000000000000 }
    ensures value { result ≡ cosines * square }
    ensures bound { result ≤ 4000000000000000000000000000000000000 }
{
    cosines * square
}

/// The haversine of two places that are `lat_gap` apart in latitude and `lon_gap` in longitude.
fn haversine(a: &Place, b: &Place, lat_gap: u32) -> u128
    requires { lat_gap ≡ latitude_gap a.now.lat b.now.lat }
    ensures value { result ≡ haversine_of a.now.lat a.now.lon b.now.lat b.now.lon }
    ensures bound { result ≤ 8000000000000000000000000000000000000 }
{
    let cosines = narrowed(cosine(a.lat), cosine(b.lat));
    let across = square_of(half_sine(around(a.lon, b.lon)));
    square_of(half_sine(lat_gap)) * 1_000_000_000_000 + scaled(cosines, across)
}

/// Whether `b` lies within `km` kilometres of `a`.
pub fn within(a: &Place, b: &Place, km: u32) -> bool
    requires { km ≤ 99999 }
    ensures { result ≡ is_within a.now.lat a.now.lon b.now.lat b.now.lon km }
{
    let arc = arc(km);
    let lat_gap = a.lat.abs_diff(b.lat);
    // Latitudes alone are further apart than the arc.
    if lat_gap > arc {
        return false;
    }
    haversine(a, b, lat_gap) <= square_of(half_sine(arc)) * 1_000_000_000_000
}
