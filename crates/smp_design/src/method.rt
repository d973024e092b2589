//! The methods of drawing, what a design may say of each, and the words for methods and orders.

ghost use Rattle.std.specs.Prelude.{◌≡◌, ◌↔◌, ◌&&◌, not, ℕ, List, Some, None, nat_le, if◌then◌else◌};
ghost use Rattle.smp_design.specs.Words;
ghost use Rattle.smp_design.specs.Words.{row, method_named, order_word};

use smp_prob::Order;

// How many columns can be balanced.
pub(crate) const MAX_BALANCE: usize = 15;

// How many columns can be coordinates.
pub(crate) const MAX_NEAR: usize = 4;

/// How the units of a stage are drawn.
#[derive(Clone, Copy, Debug, PartialEq, Eq)]
pub enum Method {
    /// The pivotal method, in frame order or in random order.
    Pivotal,
    /// Systematic sampling, in frame order or in random order.
    Systematic,
    /// The method with at most as many possible samples as units.
    MinimumSupport,
    /// Brewer's method.
    Brewer,
    /// The pivotal method among neighbours.
    LocalPivotal,
    /// The cube method, which balances the sample.
    Cube,
    /// The elimination procedure.
    Elimination,
    /// The cube method among neighbours.
    LocalCube,
    /// The cube method over all strata together.
    StratifiedCube,
}

/// The table of the methods, handed to a macro with what else is said: each method with its word, the
/// columns of values that it needs, whether the design may have an order, whether it draws a whole
/// number of units alone, whether it draws all strata together, and the version of designs that it came with.
#[macro_export]
macro_rules! each_method {
    ($table:ident: $($said:tt)*) => {
        $table!(of [
            Pivotal("pivotal", Nothing, true, false, false, 1),
            Systematic("systematic", Nothing, true, false, false, 1),
            MinimumSupport("minimum_support", Nothing, false, true, false, 1),
            Brewer("brewer", Nothing, false, true, false, 1),
            LocalPivotal("local_pivotal", Near, false, false, false, 1),
            Cube("cube", Balance, false, false, false, 1),
            Elimination("elimination", Nothing, false, true, false, 2),
            LocalCube("local_cube", Both, false, false, false, 2),
            StratifiedCube("stratified_cube", Balance, false, false, true, 2)
        ] $($said)*)
    };
}

// Every method, and the row of a method.
macro_rules! table {
    (of [$($method:ident $row:tt),*] all) => {
        &[$(Method::$method),*]
    };
    (
        of [$($method:ident(
            $word:literal, $needs:ident, $order:literal, $whole:literal, $together:literal,
            $since:literal
        )),*]
        row $of:expr
    ) => {
        match $of {
            $(Method::$method => Row::new($word, Needs::$needs, $order, $whole, $together, $since),)*
        }
    };
}

// Every method.
const METHODS: &[Method] = each_method!(table: all);

/// The columns of values that a method needs.
#[derive(Clone, Copy)]
pub(crate) enum Needs {
    /// None.
    Nothing,
    /// Those of `balance`.
    Balance,
    /// Those of `near`.
    Near,
    /// Those of `balance`, and those of `near`.
    Both,
}

impl Needs {
    pub(crate) fn is_nothing(self) -> bool
        ensures { result ≡ Words.is_nothing self }
    {
        matches!(self, Needs::Nothing)
    }

    pub(crate) fn is_balance(self) -> bool
        ensures { result ≡ Words.is_balance self }
    {
        matches!(self, Needs::Balance | Needs::Both)
    }

    pub(crate) fn is_near(self) -> bool
        ensures { result ≡ Words.is_near self }
    {
        matches!(self, Needs::Near | Needs::Both)
    }
}

// What a design may say of a method.
#[derive(Clone, Copy)]
pub(crate) struct Row {
    // The method's word.
    word: &'static str,
    pub(crate) needs: Needs,
    // Whether the design may have an order.
    pub(crate) takes_order: bool,
    // Whether the method draws a whole number of units alone.
    draws_whole: bool,
    // Whether the method draws the units of all strata together.
    together: bool,
    // The version of designs that the method came with.
    since: u32,
}

impl Row {
    fn new(
        word: &'static str,
        needs: Needs,
        takes_order: bool,
        draws_whole: bool,
        together: bool,
        since: u32,
    ) -> Row
        ensures word { result.word ≡ word.entry }
        ensures needs { result.needs ≡ needs }
        ensures takes_order { result.takes_order ≡ takes_order }
        ensures draws_whole { result.draws_whole ≡ draws_whole }
        ensures together { result.together ≡ together }
        ensures since { result.since ≡ since }
    {
        Row {
            word,
            needs,
            takes_order,
            draws_whole,
            together,
            since,
        }
    }
}

impl Row {
    // Whether a design by the method may have a second stage.
    pub(crate) fn takes_second(self) -> bool
        ensures { result ≡ (not (Words.is_near self.needs) && not self.together) }
    {
        !self.needs.is_near() && !self.together
    }
}

impl Method {
    // The method that a word means.
    pub(crate) fn from_word(word: &str) -> Option<Method>
        ensures { result ≡ method_named word.now }
    {
        METHODS
            .iter()
            .copied()
            .find(|method| method.row().word == word)
    }

    // The method, if designs of this version have it.
    pub(crate) fn if_in(self, version: u32) -> Option<Method>
        ensures { result ≡ (if nat_le (row self).since version then Some self else None) }
    {
        if self.row().since <= version {
            Some(self)
        } else {
            None
        }
    }

    /// Whether the method draws a whole number of units alone, so that their inclusion probabilities
    /// have to add up to a whole number.
    pub fn draws_whole(self) -> bool
        ensures { result ≡ (row self).draws_whole }
    {
        self.row().draws_whole
    }

    /// Whether the method needs columns of values.
    pub fn needs_columns(self) -> bool
        ensures { result ≡ Words.needs_columns self }
    {
        !self.row().needs.is_nothing()
    }

    /// Whether the method balances the sample.
    pub fn balances(self) -> bool
        ensures { result ≡ Words.balances self }
    {
        self.row().needs.is_balance()
    }

    /// Whether the method draws the units of all strata together, in one selection.
    pub fn draws_together(self) -> bool
        ensures { result ≡ Words.draws_together self }
    {
        self.row().together
    }

    // The row of the method, whose word means no other method.
    #[tactic(auto, unfolding(crate::specs::Words::row), using(crate::proofs::ReadBack::method_read_back))]
    pub(crate) fn row(self) -> Row
        ensures read_back { (word : List ℕ) →
            (method_named word ≡ Some self) ↔ (word ≡ result.word.now) }
        ensures word { result.word.now ≡ (row self).word }
        ensures needs { result.needs ≡ (row self).needs }
        ensures takes_order { result.takes_order ≡ (row self).takes_order }
        ensures draws_whole { result.draws_whole ≡ (row self).draws_whole }
        ensures together { result.together ≡ (row self).together }
        ensures since { result.since ≡ (row self).since }
    {
        each_method!(table: row self)
    }
}

// The order that a word means.
#[tactic(auto, using(crate::proofs::ReadBack::order_read_back))]
pub(crate) fn order_from_word(word: &str) -> Option<Order>
    ensures means { result ≡ Words.order_of word.now }
    ensures exactly { (order : Order) → (result ≡ Some order) ↔ (word.now ≡ order_word order) }
{
    match word {
        "frame" => Some(Order::Frame),
        "random" => Some(Order::Random),
        _ => None,
    }
}
