ghost use Rattle.std.specs.Prelude.{◌≡◌, ◌↔◌, ℕ, ◌+◌, ◌*◌, ◌%◌, ◌^◌, [], ◌∷◌, ◌++◌, ◌≤◌, ◌<◌, IsTrue, length};
ghost use Rattle.std.specs.List.{Contains};
ghost use Rattle.dd_front_jobs.specs.FirstVisit.{greatest, FitsAt, CanFollow, IsFirstVisitPrefix};

/// The greatest of 1 and some numbers.
pub fn greatest(numbers: &[u8]) -> u8
    ensures { result ≡ greatest numbers.now }
{
    let mut most = 1u8;
    for number in numbers {
        most = most.max(*number);
    }
    most
}

/// Returns whether a new number fits one at an earlier place of the same involution.
fn fits_at(prefix: &[u8], number: u8, earlier: usize) -> bool
    requires { earlier < length prefix.now }
    ensures { IsTrue result ↔ FitsAt prefix.now number (length prefix.now) earlier }
{
    let told = prefix[earlier];
    if told == number {
        return false;
    }
    let is_back = number as usize == 1 + earlier / 3;
    let is_forth = told as usize == 1 + prefix.len() / 3;
    is_back == is_forth
}

/// Returns whether a new number fits all at earlier places of the same involution.
fn fits(prefix: &[u8], number: u8) -> bool
    ensures { IsTrue result
        ↔ ((u : ℕ) → u < length prefix.now → u % 3 ≡ length prefix.now % 3
        → FitsAt prefix.now number (length prefix.now) u) }
{
    let mut earlier = prefix.len() % 3;
    while earlier < prefix.len() {
        if !fits_at(prefix, number, earlier) {
            return false;
        }
        earlier += 3;
    }
    true
}

/// Returns whether the next chamber is among the images of the first ones, if these are all known.
fn reaches(size: u32, prefix: &[u8], number: u8) -> bool
    requires { length prefix.now < 2 ^ 32 }
    ensures { IsTrue result
        ↔ ((m : ℕ) → 1 ≤ m → m < size → length prefix.now + 1 ≡ 3 * m
        → Contains (prefix.now ++ number ∷ []) (m + 1)) }
{
    let told = prefix.len() + 1;
    if told % 3 != 0 {
        return true;
    }
    let row = told / 3;
    if row >= size as usize {
        return true;
    }
    if number as usize == row + 1 {
        return true;
    }
    for told in prefix {
        if *told as usize == row + 1 {
            return true;
        }
    }
    false
}

/// Returns whether a number may come after a first-visit prefix of the codes of a size.
pub fn can_follow(size: u32, prefix: &[u8], number: u8) -> bool
    requires { length prefix.now < 2 ^ 32 }
    ensures { IsTrue result ↔ CanFollow size prefix.now number }
{
    (prefix.len() as u64) < 3 * size as u64
        && number >= 1
        && number as u32 <= size
        && fits(prefix, number)
        && reaches(size, prefix, number)
        && number - 1 <= greatest(prefix)
}

/// Returns whether the chambers come in the order of their first visit in the beginning of a code.
pub fn is_first_visit(size: u32, prefix: &[u8]) -> bool
    requires { length prefix.now < 2 ^ 32 }
    ensures { IsTrue result ↔ IsFirstVisitPrefix size prefix.now }
{
    for place in 0..prefix.len() {
        if !can_follow(size, &prefix[..place], prefix[place]) {
            return false;
        }
    }
    true
}
