// Natural numbers below 2^256, for sums of two products of numbers within 128 bits.

const HALF: u128 = 0xffff_ffff_ffff_ffff;

/// The number `high * 2^128 + low`.
#[derive(Clone, Copy, Debug, PartialEq, Eq)]
pub struct Magnitude {
    high: u128,
    low: u128,
}

impl Magnitude {
    pub fn of(low: u128) -> Magnitude {
        Magnitude { high: 0, low }
    }

    pub fn is_zero(self) -> bool {
        self.high == 0 && self.low == 0
    }

    pub fn is_one(self) -> bool {
        self.high == 0 && self.low == 1
    }

    /// The product, by halves of 64 bits.
    pub fn product(a: u128, b: u128) -> Magnitude {
        let (a_high, a_low) = (a >> 64, a & HALF);
        let (b_high, b_low) = (b >> 64, b & HALF);
        let lowest = a_low.wrapping_mul(b_low);
        let middle = a_high.wrapping_mul(b_low).wrapping_add(lowest >> 64);
        let other = a_low.wrapping_mul(b_high).wrapping_add(middle & HALF);
        let highest = a_high.wrapping_mul(b_high).wrapping_add(middle >> 64);
        Magnitude {
            high: highest.wrapping_add(other >> 64),
            low: other.wrapping_shl(64) | (lowest & HALF),
        }
    }

    fn is_below(self, other: Magnitude) -> bool {
        self.high < other.high || (self.high == other.high && self.low < other.low)
    }

    fn plus(self, other: Magnitude) -> Magnitude {
        let (low, over) = self.low.overflowing_add(other.low);
        let high = self.high.wrapping_add(other.high);
        Magnitude {
            high: if over { high.wrapping_add(1) } else { high },
            low,
        }
    }

    /// The difference, for a second number that isn't greater.
    fn minus(self, other: Magnitude) -> Magnitude {
        let (low, under) = self.low.overflowing_sub(other.low);
        let high = self.high.wrapping_sub(other.high);
        Magnitude {
            high: if under { high.wrapping_sub(1) } else { high },
            low,
        }
    }

    fn trailing_zeros(self) -> u32 {
        if self.low == 0 {
            self.high.trailing_zeros().wrapping_add(128)
        } else {
            self.low.trailing_zeros()
        }
    }

    /// Divided by 2^count, rounded down.
    fn shifted_down(self, count: u32) -> Magnitude {
        if count == 0 {
            self
        } else if count < 128 {
            Magnitude {
                high: self.high >> count,
                low: (self.low >> count) | self.high.wrapping_shl(128 - count),
            }
        } else {
            Magnitude {
                high: 0,
                low: self.high.wrapping_shr(count - 128),
            }
        }
    }

    /// Times 2^count, where that is below 2^256.
    fn shifted_up(self, count: u32) -> Magnitude {
        if count == 0 {
            self
        } else if count < 128 {
            Magnitude {
                high: self.high.wrapping_shl(count) | (self.low >> (128 - count)),
                low: self.low.wrapping_shl(count),
            }
        } else {
            Magnitude {
                high: self.low.wrapping_shl(count - 128),
                low: 0,
            }
        }
    }

    /// The greatest common divisor, by halving and differences: each round halves a number.
    pub fn gcd(self, other: Magnitude) -> Magnitude {
        if self.is_zero() {
            return other;
        }
        if other.is_zero() {
            return self;
        }
        let twos = self.trailing_zeros().min(other.trailing_zeros());
        let mut a = self.shifted_down(self.trailing_zeros());
        let mut b = other.shifted_down(other.trailing_zeros());
        for _ in 0..512 {
            if a == b {
                break;
            }
            if a.is_below(b) {
                (a, b) = (b, a);
            }
            a = a.minus(b);
            a = a.shifted_down(a.trailing_zeros());
        }
        b.shifted_up(twos)
    }
}

/// A number below 2^255 with its sign.
#[derive(Clone, Copy, Debug)]
pub struct Wide {
    pub is_negative: bool,
    pub size: Magnitude,
}

impl Wide {
    fn product(a: i128, b: i128) -> Wide {
        Wide {
            is_negative: (a < 0) != (b < 0),
            size: Magnitude::product(a.unsigned_abs(), b.unsigned_abs()),
        }
    }

    /// The sum `a * p + b * q`.
    pub fn sum_of_products(a: i128, p: i128, b: i128, q: i128) -> Wide {
        let left = Wide::product(a, p);
        let right = Wide::product(b, q);
        if left.is_negative == right.is_negative {
            Wide {
                is_negative: left.is_negative,
                size: left.size.plus(right.size),
            }
        } else if left.size.is_below(right.size) {
            Wide {
                is_negative: right.is_negative,
                size: right.size.minus(left.size),
            }
        } else {
            Wide {
                is_negative: left.is_negative,
                size: left.size.minus(right.size),
            }
        }
    }
}

/// A divisor `odd * 2^twos`, with the inverse of its odd part modulo 2^128.
#[derive(Clone, Copy, Debug)]
pub struct Divisor {
    twos: u32,
    odd: u128,
    inverse: u128,
}

impl Divisor {
    /// The divisor, unless it is 0 or its odd part is past 128 bits.
    pub fn new(number: Magnitude) -> Option<Divisor> {
        let twos = number.trailing_zeros();
        let odd = number.shifted_down(twos);
        if odd.high != 0 || odd.low == 0 {
            return None;
        }
        let odd = odd.low;
        // Each round of Newton's rule doubles the number of right bits, from three.
        let mut inverse = odd;
        for _ in 0..6 {
            inverse = inverse.wrapping_mul(2u128.wrapping_sub(odd.wrapping_mul(inverse)));
        }
        Some(Divisor { twos, odd, inverse })
    }

    /// The number over the divisor, where nothing is left over and it is within 128 bits.
    pub fn quotient(&self, number: Magnitude) -> Option<u128> {
        let shifted = number.shifted_down(self.twos);
        let quotient = shifted.low.wrapping_mul(self.inverse);
        let is_exact = Magnitude::product(quotient, self.odd) == shifted
            && shifted.shifted_up(self.twos) == number;
        if is_exact { Some(quotient) } else { None }
    }

    /// The same of a number with a sign.
    pub fn quotient_of(&self, number: Wide) -> Option<i128> {
        let size = i128::try_from(self.quotient(number.size)?).ok()?;
        if number.is_negative {
            size.checked_neg()
        } else {
            Some(size)
        }
    }
}
