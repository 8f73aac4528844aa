// The two layouts of tags, each by the type of a tag, u8 or u32, and the calls on a pool whose tags are lent in either.
use byte_tags::{Answer, Listed, TermPlace};

// A pool of n used cells, and the table of sort rules in use.
#[derive(Drop)]
pub struct Lent<'a, T> {
    pub tags: &'a mut [T],
    pub values: &'a mut [u32],
    pub table: &'a [u32],
    pub n: usize,
}

pub trait Layout: Copy + Into<u32> {
    // A word of a file as a tag, if it fits.
    fn from_word(word: u32) -> Option<Self>;

    fn check(pool: &mut Lent<Self>, rule: u32, conclusion: &[u32]) -> Answer;

    fn sort_of_term(pool: &Lent<Self>, t: TermPlace) -> Answer;

    fn free_vars(pool: &Lent<Self>, t: TermPlace, marks: &mut [u8]) -> Answer;

    fn normal_form(pool: &mut Lent<Self>, t: TermPlace, polarity: bool) -> Answer;

    fn clause_list(
        pool: &mut Lent<Self>,
        t: TermPlace,
        literals: &mut [u32],
        ends: &mut [u32],
    ) -> Listed;
}

// Kept: users and C name the calls of either layout, to which these methods hand on.
impl Layout for u8 {
    fn from_word(word: u32) -> Option<u8> {
        u8::try_from(word).ok()
    }

    fn check(pool: &mut Lent<u8>, rule: u32, conclusion: &[u32]) -> Answer {
        byte_tags::check(pool.tags, pool.values, pool.table, pool.n, rule, conclusion)
    }

    fn sort_of_term(pool: &Lent<u8>, t: TermPlace) -> Answer {
        byte_tags::sort_of_term(pool.tags, pool.values, pool.table, pool.n, t)
    }

    fn free_vars(pool: &Lent<u8>, t: TermPlace, marks: &mut [u8]) -> Answer {
        byte_tags::free_vars(pool.tags, pool.values, pool.table, pool.n, t, marks)
    }

    fn normal_form(pool: &mut Lent<u8>, t: TermPlace, polarity: bool) -> Answer {
        byte_tags::normal_form(pool.tags, pool.values, pool.table, pool.n, t, polarity)
    }

    fn clause_list(
        pool: &mut Lent<u8>,
        t: TermPlace,
        literals: &mut [u32],
        ends: &mut [u32],
    ) -> Listed {
        byte_tags::clause_list(
            pool.tags,
            pool.values,
            pool.table,
            pool.n,
            t,
            literals,
            ends,
        )
    }
}

impl Layout for u32 {
    fn from_word(word: u32) -> Option<u32> {
        Some(word)
    }

    fn check(pool: &mut Lent<u32>, rule: u32, conclusion: &[u32]) -> Answer {
        word_tags::check(pool.tags, pool.values, pool.table, pool.n, rule, conclusion)
    }

    fn sort_of_term(pool: &Lent<u32>, t: TermPlace) -> Answer {
        word_tags::sort_of_term(pool.tags, pool.values, pool.table, pool.n, t)
    }

    fn free_vars(pool: &Lent<u32>, t: TermPlace, marks: &mut [u8]) -> Answer {
        word_tags::free_vars(pool.tags, pool.values, pool.table, pool.n, t, marks)
    }

    fn normal_form(pool: &mut Lent<u32>, t: TermPlace, polarity: bool) -> Answer {
        word_tags::normal_form(pool.tags, pool.values, pool.table, pool.n, t, polarity)
    }

    fn clause_list(
        pool: &mut Lent<u32>,
        t: TermPlace,
        literals: &mut [u32],
        ends: &mut [u32],
    ) -> Listed {
        word_tags::clause_list(
            pool.tags,
            pool.values,
            pool.table,
            pool.n,
            t,
            literals,
            ends,
        )
    }
}
