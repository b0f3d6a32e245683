// The fields before the stamp.
ghost use Rattle.std.specs.Prelude.{◌≡◌, ◌+◌, ◌*◌, ◌≤◌, ◌++◌, length, take};
ghost use Rattle.std.specs.List.{flat_map};
ghost use Rattle.arrayvec.specs.ArrayVec.{array_vec_len};
ghost use Rattle.report.specs.Texts.{number_field, head_text};

use crate::letter::Letter;
use arrayvec::ArrayVec;
use itoa::Buffer;

// The most bytes before the stamp: the letter, nine numbers of a tab and ten digits, and a tab.
pub const WIDEST_HEAD: usize = 101;

pub type Head = ArrayVec<u8, WIDEST_HEAD>;

// The numbers of the events that are chosen.
pub fn chosen(choice: &[u32; 8], width: u8) -> &[u32]
    ensures events { result.now ≡ take width choice.now }
    ensures few { length result.now ≤ 8 }
{
    let count = usize::from(width).min(8);
    &choice[..count]
}

// Appends a tab and a number.
fn push_field(head: &mut Head, n: u32)
    requires { array_vec_len head.old + 11 ≤ 101 }
    ensures text { head.new.items ≡ head.old.items ++ number_field n }
    ensures short { array_vec_len head.new ≤ array_vec_len head.old + 11 }
{
    let mut digits = Buffer::new();
    head.push(b'\t');
    let _ = head.try_extend_from_slice(digits.format(n).as_bytes());
}

// All that stands before the stamp.
pub fn head_of(letter: Letter, slot: u8, choice: &[u32]) -> Head
    requires { length choice.now ≤ 8 }
    ensures { result.items ≡ head_text letter slot choice.now }
{
    let mut head = Head::new();
    head.push(u8::from(letter));
    push_field(&mut head, u32::from(slot));
    for n in choice {
        push_field(&mut head, *n);
    }
    head.push(b'\t');
    head
}
