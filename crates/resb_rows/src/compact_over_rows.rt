//! Bundles and their compact files over a pool bundle, with keys as ICU's compiler lays them. Each
//! row is the version of a pool and a text, and the file's version and words behind its header, up
//! to a `;`: a row more costs no proof.
use crate::answers::same;
use crate::over_pool_rows::{pool_named, words_of};
use resb_compile::{Compile, TextForm};
use resb_lent::Pool;
use resb_text::Reader;
use resb_write::Layout;
use std::alloc::Global;
use std::test::Fail;

/// Over pools with the keys `alpha`, `beta` and `gamma`: keys in the pool; at ends of the pool's
/// keys; of an own key, with one that would lie in the pool; behind the pool's last one. Over the
/// pool of a long string: a string that ends it saves nothing, and stands behind another one.
pub(crate) const COMPACT_OVER: &str = r#"3 a{alpha{""}beta{"x"}} =>
    2:50000003,8,9,d,d,2,4,d,e31610fa,780000,20000,60000,10000,;
3 b{zeta:int{5}ta:int{3}a:int{1}pha:int{2}eta:int{4}} =>
    2:2000000c,8,b,14,14,5,4,c,e31610fa,6174657a,aaaaaa00,aaaa0000,270005,2e0025,240026,
    70000001,70000004,70000002,70000003,70000005,;
3 c{xa:int{4}gamma:int{3}ma:int{1}amma:int{2}} =>
    2:2000000b,8,a,12,12,4,4,b,e31610fa,aa006178,aaaa0000,340004,360033,aaaa0024,70000002,
    70000003,70000001,70000004,;
2 d{t:int{3}ut:int{4}beta:int{1}lphabeta:int{2}a:int{5}} =>
    2:2000000d,8,c,15,15,5,4,d,1baba403,6c007475,62616870,617465,aaaa0000,390005,270036,240025,
    70000005,70000001,70000002,70000003,70000004,;
3 e{alpha{"one two three"}eta{""}} =>
    3:50000001,208,9,c,c,2,20004,c,e31610fa,20000,70000,1,;
2 f{a:int{1}alphaa:int{2}za:int{3}mma:int{4}} =>
    2:2000000d,8,c,14,14,4,4,d,1baba403,68706c61,7a006161,aaaa0061,aaaa0000,2c0004,3d0024,
    aaaa002b,70000001,70000002,70000004,70000003,;
long f{a{"aaaaaaaaaaaaaaaaaaaabbbbbbbbbbbbbbbbbbbbb"}b{
"aaaaaaaaaaaaaaaaaaaabbbbbbbbbbbbbbbbbbbbb"}c{"ccccccccccccccccccccddddddddddddddddddddd"}d{
"ccccccccccccccccccccddddddddddddddddddddd"}} =>
    2:50000057,8,b,3b,3b,4,4,3b,9b2603dd,620061,640063,dc290000,630063,630063,630063,630063,
    630063,630063,630063,630063,630063,630063,640064,640064,640064,640064,640064,640064,640064,
    640064,640064,640064,64,61dc29,610061,610061,610061,610061,610061,610061,610061,610061,
    610061,620061,620062,620062,620062,620062,620062,620062,620062,620062,620062,620062,40000,
    260024,2a0028,2c002c,10001,;
"#;

/// The version and the words of the file that the three calls give.
pub(crate) fn line_of_compact_over(alloc: Global, input: &str) -> Result<String, Fail> {
    let (version, text) = input.split_once(' ').ok_or("a row without a pool")?;
    let bytes = pool_named(alloc, version)?;
    let pool = Pool::open(alloc, &bytes)?;
    let (bundle, keys) = Reader::read(alloc, text)?;
    let layout = Layout::compact().over(&pool);
    let file = layout.write(alloc, &bundle, keys.as_slice())?;
    let (draft, keys) = Reader::read_draft(alloc, text)?;
    let drafted = layout.write_draft(alloc, draft, keys.as_slice())?;
    let found = same(words_of(alloc, &file)?, words_of(alloc, &drafted)?)?;
    let compiled = Compile::new(TextForm::Icu)
        .over(&pool)
        .compact()
        .text(alloc, text)?;
    same(found, words_of(alloc, &compiled)?)
}
