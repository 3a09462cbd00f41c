// The fields of a line of BOARD.
ghost use Rattle.std.specs.Prelude.{◌≡◌, ◌≤◌, IfSome, length, drop, get_or};
ghost use Rattle.bench_lines.specs.Fields.{fields_of, hole, is_hole, decimal_in, pair_in, nibble_in, number_at, says_at};
ghost use Rattle.bench_lines.specs.Cursor.{number_read, number_said, fields_left, Ends};

// What a field says: a number, that it was not measured, or nothing that can be read.
#[derive(Clone, Copy, Debug, PartialEq, Eq)]
pub(crate) enum Says {
    Number(u32),
    Unmeasured,
    Unreadable,
}

#[tactic(auto, unfolding(crate::specs::Fields::is_hole))]
fn is_hole(f: &[u8]) -> bool
    ensures { result ≡ is_hole f.now }
{
    matches!(f, [b'-'])
}

#[tactic(auto, unfolding(crate::specs::Fields::decimal_in))]
fn decimal_in(most: u32, f: &[u8]) -> Option<u32>
    ensures { number_read result ≡ decimal_in most f.now }
{
    let n = f.len();
    if n == 0 {
        return None;
    }
    if (f[0] == b'0') & (1 < n) {
        return None;
    }
    let d = lines::decimal(f)?;
    if most < d {
        return None;
    }
    Some(d)
}

#[tactic(auto, unfolding(crate::specs::Fields::pair_in))]
fn pair_in(f: &[u8]) -> Option<u32>
    ensures { number_read result ≡ pair_in f.now }
{
    if f.len() != 2 {
        return None;
    }
    let h = lines::digit(f[0])?;
    let l = lines::digit(f[1])?;
    Some((16 * h + l).into())
}

#[tactic(auto, unfolding(crate::specs::Fields::nibble_in))]
fn nibble_in(f: &[u8]) -> Option<u32>
    ensures { number_read result ≡ nibble_in f.now }
{
    if f.len() != 1 {
        return None;
    }
    let d = lines::digit(f[0])?;
    Some(d.into())
}

// Stays: a field goes by its place, as the definition does (bench_lines/Fields.number_at).
#[tactic(auto, unfolding(crate::specs::Fields::number_at))]
fn number_at(place: usize, f: &[u8]) -> Option<u32>
    ensures { number_read result ≡ number_at place f.now }
{
    match place {
        0 => decimal_in(255, f),
        1..4 => pair_in(f),
        4 => nibble_in(f),
        5..7 => decimal_in(1, f),
        _ => decimal_in(u32::MAX, f),
    }
}

#[tactic(auto, unfolding(crate::specs::Fields::says_at))]
fn says_at(place: usize, f: &[u8]) -> Says
    ensures { number_said result ≡ says_at place f.now }
{
    if is_hole(f) {
        return Says::Unmeasured;
    }
    match number_at(place, f) {
        Some(n) => Says::Number(n),
        None => Says::Unreadable,
    }
}

// Where the field ends that begins at a place.
fn field_end(line: &[u8], at: usize) -> usize
    requires { at ≤ length line.now }
    ensures { Ends line.now at result }
{
    for i in at..line.len() {
        if line[i] == b' ' {
            return i;
        }
    }
    line.len()
}

// What a field says, and where the next one begins, if there are more.
#[derive(Clone, Copy)]
pub(crate) struct Field {
    pub says: Says,
    pub next: Option<usize>,
}

// Where the first field begins; an empty line has none.
pub(crate) fn first_field(line: &[u8]) -> Option<usize>
    ensures value { fields_left line.now result ≡ fields_of line.now }
    ensures in_bounds { IfSome result (λ n. n ≤ length line.now) }
{
    if line.is_empty() { None } else { Some(0) }
}

// The field at a place of the answer, from a place of the line on; where there are no more, one that is not measured.
pub(crate) fn next_field(line: &[u8], at: Option<usize>, place: usize) -> Field
    requires { IfSome at (λ n. n ≤ length line.now) }
    ensures says_value { number_said result.says ≡ says_at place (get_or (fields_left line.now at) 0 hole) }
    ensures next_value { fields_left line.now result.next ≡ drop 1 (fields_left line.now at) }
    ensures next_in_bounds { IfSome result.next (λ n. n ≤ length line.now) }
{
    let Some(at) = at else {
        return Field {
            says: Says::Unmeasured,
            next: None,
        };
    };
    let e = field_end(line, at);
    let says = says_at(place, &line[at..e]);
    if e < line.len() {
        return Field {
            says,
            next: Some(e + 1),
        };
    }
    Field { says, next: None }
}
