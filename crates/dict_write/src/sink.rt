// Where a copied DICT goes: its bytes are counted, or written.
ghost use Rattle.std.specs.Prelude.{ℕ, List, ◌+◌, ◌^◌, ◌≤◌, ◌<◌, ◌≡◌, true, length};
ghost use Rattle.octets.specs.Out.{Writes};
ghost use Rattle.decimal.specs.Written.{number_bytes};
ghost use Rattle.dict.specs.Op.{is_operator};
ghost use Rattle.dict_write.specs.Written.{op_bytes_lem};
ghost use Rattle.dict_write.specs.Sinks.{Follows, Counts, counts_follow, writes_follow};

use crate::{op_len, put_op};
use decimal::Decimal;
use decimal_write::{number_len, put_number};
use octets::out::Out;

// It has room for some bytes, and takes them. A number is written as an operator only where it is one (`allows`); any is counted.
pub trait Sink {
    ghost room: { Self → List ℕ → Type 0 };

    ghost takes: { Self → List ℕ → Self → Type 0 };

    ghost allows: { ℕ → Type 0 };

    fn number(&mut self, value: Decimal)
        requires { room self.old (number_bytes value) }
        ensures { takes self.old (number_bytes value) self.new };

    fn op(&mut self, op: usize)
        requires { allows op × room self.old (op_bytes_lem op) }
        ensures { takes self.old (op_bytes_lem op) self.new };

    ghost follows: { Follows room takes };

    ghost operators: { (op : ℕ) → is_operator op ≡ true → allows op };
}

// How many bytes there were.
#[derive(Clone, Copy)]
pub struct Count {
    pub len: usize,
}

impl Sink for Count {
    ghost room = { λ s bs. s.len + length bs < 2 ^ 64 };

    ghost takes = { λ s bs t. Counts s bs t };

    ghost allows = { λ op. Unit };

    fn number(&mut self, value: Decimal) {
        self.len += number_len(value);
    }

    fn op(&mut self, op: usize) {
        self.len += op_len(op);
    }

    ghost follows = { counts_follow };

    ghost operators = { λ op e. tt };
}

impl Sink for Out<'_> {
    ghost room = { λ s bs. s.at + length bs ≤ length s.bytes.now };

    ghost takes = { λ s bs t. Writes s bs t };

    ghost allows = { λ op. is_operator op ≡ true };

    fn number(&mut self, value: Decimal) {
        put_number(value, self);
    }

    fn op(&mut self, op: usize) {
        put_op(op, self);
    }

    ghost follows = { writes_follow };

    ghost operators = { λ op e. e };
}
