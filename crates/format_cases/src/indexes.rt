// Cases of an INDEX: a position and a font.
ghost use Rattle.std.specs.Prelude.{◌≡◌, ◌+◌, ◌*◌, ◌≤◌, ◌<◌, ◌++◌, length};
ghost use Rattle.index.specs.Index.{index_at};
ghost use Rattle.format_cases.specs.Indexes.{item_bytes, items_bytes, head_bytes, index_found, index_answer};

use cases::answer::Answer;
use index::Index;
use index::items::Items;

// The k-th item: where it starts in the font, and its length.
fn put_item(items: &Items<'_>, k: usize, to: &mut Answer)
    requires { (k < items.now.ix.count) × (length to.old + 6 ≤ 4096) }
    ensures { (to.new ≡ to.old ++ item_bytes items.now.bytes.now items.now.ix k) × (length to.new ≡ length to.old + 6) }
{
    let start = index::offset(items.bytes, items.ix, k);
    let end = index::offset(items.bytes, items.ix, k + 1);
    to.num(items.ix.base + start, 4);
    to.num(end - start, 2);
}

// All items.
fn put_items(items: &Items<'_>, to: &mut Answer)
    requires { length to.old + 6 * items.now.ix.count ≤ 4096 }
    ensures { to.new ≡ to.old ++ items_bytes items.now.bytes.now items.now.ix 0 items.now.ix.count }
{
    for k in 0..items.ix.count {
        put_item(items, k, to);
    }
}

// No refusal, the place after the INDEX, and its count.
fn of_head(ix: Index) -> Answer
    ensures { (result ≡ head_bytes ix) × (length result ≡ 7) }
{
    let mut answer = Answer::one(0);
    answer.num(ix.end, 4);
    answer.num(ix.count, 2);
    answer
}

// The INDEX at a place of a font.
fn index_in(font: &[u8], at: usize) -> Option<Answer>
    ensures { result ≡ index_found font.now (index_at font.now at) }
{
    match index::read_index(font, at) {
        Err(refusal) => Some(Answer::one(refusal.number())),
        Ok(ix) => {
            if 600 < ix.count {
                return None;
            }
            let items = Items { bytes: font, ix };
            let mut answer = of_head(ix);
            put_items(&items, &mut answer);
            Some(answer)
        }
    }
}

// Kind x: the INDEX at a place of a font.
pub fn answer_index(input: &[u8]) -> Option<Answer>
    ensures { result ≡ index_answer input.now }
{
    if input.len() < 2 {
        return None;
    }
    index_in(&input[2..], octets::u16_at(input, 0))
}
