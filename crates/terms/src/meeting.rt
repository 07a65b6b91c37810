// What a plan makes of coefficients and rows.
ghost use Rattle.std.specs.Prelude.{◌≡◌, ◌≤◌, ◌*ℤ◌, unsigned_abs};
ghost use Rattle.terms.specs.Rows.{dot, meets, reads};
ghost use Rattle.terms.specs.Stored.{whole};

use crate::row::{Coefficients, Row};

// One term of a sum.
fn term(coefficient: i32, value: i32) -> i64
    requires { unsigned_abs coefficient ≤ 1000000 }
    ensures value { result ≡ coefficient *ℤ value }
    ensures bound { unsigned_abs result ≤ 2147483648000000 }
{
    coefficient as i64 * value as i64
}

// The value of a plan at a place; 0 past its end.
pub fn value_at(plan: &[i32], place: u8) -> i32
    ensures { result ≡ reads plan.now place }
{
    plan.get(place as usize).copied().unwrap_or(0)
}

impl Coefficients {
    // The sum of coefficient times value, exact for any plan: a place that either lacks counts as 0.
    pub fn dot(&self, plan: &[i32]) -> i64
        ensures { result ≡ dot self.now.items plan.now }
    {
        let front = &plan[..plan.len().min(16)];
        let mut sum: i64 = 0;
        // By number: a zip asks both lists for their end at each item, which costs where variables are few.
        for (i, value) in front.iter().enumerate() {
            sum += term(self.items[i], *value);
        }
        sum
    }
}

impl Row {
    // Whether the plan meets the row.
    pub fn is_met(&self, plan: &[i32]) -> bool
        ensures { result ≡ meets plan.now (whole self.now) }
    {
        self.coefficients.dot(plan) <= self.right
    }
}
