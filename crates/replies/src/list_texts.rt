// The line of a list whose numbers a row holds: numbers one by one, or months as records.
ghost use Rattle.std.specs.Prelude.{◌≡◌, ◌+◌, ◌*◌, ◌≤◌, ◌<◌, length, take};
ghost use Rattle.rows.specs.Row.{over};
ghost use Rattle.texts.specs.Text.{filled, text_room};
ghost use Rattle.replies.specs.LineText.{item_at};
ghost use Rattle.replies.specs.ListText.{items_text, ItemsTake};

use texts::fill;

// So many items of a template that takes `width` numbers, and the line end; of none it is said that there are none. The numbers are lent whole, and
// counted: a slice of them would have to be shown to hold whole items.
#[tactic(auto, using(crate::proofs::ListTextLaws::no_items), unfolding(texts::specs::Text::filled, texts::specs::Text::piece, texts::specs::Text::numbers_taken))]
pub(crate) fn put_items(
    item: &[u8],
    width: usize,
    count: usize,
    numbers: &[u64],
    row: &mut [u8],
) -> usize
    requires { (0 < length item.now) × (0 < width) × ItemsTake item.now width × (width * count ≤ length numbers.now) × (text_room item.now * count + 100 ≤ length row.old) }
    ensures value { result ≡ length (items_text item.now width (take (width * count) numbers.now)) }
    ensures writes { row.new ≡ over (items_text item.now width (take (width * count) numbers.now)) row.old }
{
    if count == 0 {
        return fill(b"none\n", &[], row);
    }
    let mut used: usize = 0;
    for (i, own) in numbers.chunks_exact(width).take(count).enumerate() {
        used += put_item(item, i, own, &mut row[used..]);
    }
    row[used] = b'\n';
    used + 1
}

// The item at place i of the line: the blank before it is left out at the first.
#[tactic(auto, using(crate::proofs::ListTextLaws::first_item, crate::proofs::ListTextLaws::later_item, texts::proofs::TextLaws::filled_most))]
fn put_item(item: &[u8], i: usize, numbers: &[u64], row: &mut [u8]) -> usize
    requires { (0 < length item.now) × (text_room item.now ≤ length row.old) }
    ensures within { result ≤ text_room item.now }
    ensures value { result ≡ length (filled (item_at item.now i) numbers.now) }
    ensures writes { row.new ≡ over (filled (item_at item.now i) numbers.now) row.old }
{
    if i == 0 {
        fill(&item[1..], numbers, row)
    } else {
        fill(item, numbers, row)
    }
}
