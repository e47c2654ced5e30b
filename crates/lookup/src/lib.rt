// Looks names up (document 01: Three ordered lists). Proved: `find` answers every slice of bytes and every edition as
// `looking_up` of names/specs says. Assumed: nothing.
#![tactic(auto)]

ghost use Rattle.std.specs.Prelude.{◌≡◌, ◌+◌, ◌<◌, length, get_or, Some, None};
ghost use Rattle.base.specs.If.{when◌then◌else◌};
ghost use Rattle.word.specs.Word.{word};
ghost use Rattle.names.specs.Lookup.{looking_up};
ghost use Rattle.names.specs.Searching.{sought, searching, known_in};
ghost use Rattle.names.specs.Names.{second_edition, all_named};

use edition::{Edition, Place};
use names::Found;

// The byte at i as a number.
fn byte_at(name: &[u8], i: usize) -> u64
    requires { i < length name.now }
    ensures { (result ≡ get_or name.now i 0) × (result < 256) }
{
    name[i] as u64
}

// The short at i, low byte first.
fn short_at(name: &[u8], i: usize) -> u64
    requires { i + 1 < length name.now }
    ensures { (result ≡ word 2 name.now i) × (result < 65536) }
{
    byte_at(name, i) + byte_at(name, i + 1) * 256
}

// The number that is looked for in the table, or 0 for bytes that can't be a name of it. (65536 and
// 4294967296 are 256 to the power of 2 and 4.)
fn pack(name: &[u8]) -> u64
    ensures { result ≡ sought name.now }
{
    let n = name.len();
    if n < 2 {
        return 0;
    }
    if name[n - 1] == 0 {
        return 0;
    }
    match n {
        2 => short_at(name, 0),
        3 => short_at(name, 0) + byte_at(name, 2) * 65536,
        4 => short_at(name, 0) + short_at(name, 2) * 65536,
        5 => short_at(name, 0) + short_at(name, 2) * 65536 + byte_at(name, 4) * 4294967296,
        6 => short_at(name, 0) + short_at(name, 2) * 65536 + short_at(name, 4) * 4294967296,
        _ => 0,
    }
}

// The place among all names of the name of that number; their count where no name has it.
fn place_of(number: u64) -> usize
    ensures { result ≡ searching 0 all_named number }
{
    match number {
        30562 => 0, // bw
        28001 => 1, // am
        6452088 => 2, // xsb
        7366776 => 3, // xhp
        1819174264 => 4, // xenl
        28517 => 5, // eo
        28263 => 6, // gn
        25448 => 7, // hc
        28011 => 8, // km
        29544 => 9, // hs
        28265 => 10, // in
        24932 => 11, // da
        25188 => 12, // db
        7498093 => 13, // mir
        1919382381 => 14, // msgr
        29551 => 15, // os
        461430879077 => 16, // eslok
        29816 => 17, // xt
        31336 => 18, // hz
        27765 => 19, // ul
        7237496 => 20, // xon
        1852799086 => 21, // nxon
        1765106541 => 22, // mc5i
        1937008739 => 23, // chts
        427037979246 => 24, // nrrmc
        6516846 => 25, // npc
        491294778478 => 26, // ndscr
        6513507 => 27, // ccc
        6644578 => 28, // bce
        7564392 => 29, // hls
        1634756728 => 30, // xhpa
        1836610147 => 31, // crxm
        521627328868 => 32, // daisy
        1634760312 => 33, // xvpa
        7168371 => 34, // sam
        2020175971 => 35, // cpix
        2020175980 => 36, // lpix
        1936486243 => 37, // cols
        29801 => 38, // it
        495622973804 => 39, // lines
        28012 => 40, // lm
        6516088 => 41, // xmc
        25200 => 42, // pb
        29814 => 43, // vt
        7107447 => 44, // wsl
        1650551918 => 45, // nlab
        26732 => 46, // lh
        30572 => 47, // lw
        24941 => 48, // ma
        1836412535 => 49, // wnum
        126935332843363 => 50, // colors
        495840747888 => 51, // pairs
        7758702 => 52, // ncv
        7627363 => 53, // cbt
        7103842 => 54, // bel
        29283 => 55, // cr
        7500643 => 56, // csr
        6513268 => 57, // tbc
        491260308579 => 58, // clear
        27749 => 59, // el
        25701 => 60, // ed
        6385768 => 61, // hpa
        448344124771 => 62, // cmdch
        7370083 => 63, // cup
        828667235 => 64, // cud1
        1701670760 => 65, // home
        495690606947 => 66, // civis
        828536163 => 67, // cub1
        483005788781 => 68, // mrcup
        470071340643 => 69, // cnorm
        828798307 => 70, // cuf1
        27756 => 71, // ll
        829781347 => 72, // cuu1
        495690610275 => 73, // cvvis
        828924772 => 74, // dch1
        3239012 => 75, // dl1
        7107428 => 76, // dsl
        25704 => 77, // hd
        495588568435 => 78, // smacs
        461413903458 => 79, // blink
        1684828002 => 80, // bold
        483005787507 => 81, // smcup
        1667526003 => 82, // smdc
        7170404 => 83, // dim
        1919511923 => 84, // smir
        495690608233 => 85, // invis
        1953460848 => 86, // prot
        7759218 => 87, // rev
        1869835635 => 88, // smso
        1819635059 => 89, // smul
        6841189 => 90, // ech
        495588568434 => 91, // rmacs
        812803955 => 92, // sgr0
        483005787506 => 93, // rmcup
        1667526002 => 94, // rmdc
        1919511922 => 95, // rmir
        1869835634 => 96, // rmso
        1819635058 => 97, // rmul
        448612363366 => 98, // flash
        26214 => 99, // ff
        7107430 => 100, // fsl
        3240809 => 101, // is1
        3306345 => 102, // is2
        3371881 => 103, // is3
        26217 => 104, // if
        828924777 => 105, // ich1
        3239017 => 106, // il1
        28777 => 107, // ip
        7561835 => 108, // kbs
        1667396715 => 109, // ktbc
        1919705963 => 110, // kclr
        422541812587 => 111, // kctab
        212204741739 => 112, // kdch1
        829187179 => 113, // kdl1
        212138812267 => 114, // kcud1
        491395052139 => 115, // krmir
        7103851 => 116, // kel
        6579563 => 117, // ked
        3171947 => 118, // kf0
        3237483 => 119, // kf1
        808543851 => 120, // kf10
        3303019 => 121, // kf2
        3368555 => 122, // kf3
        3434091 => 123, // kf4
        3499627 => 124, // kf5
        3565163 => 125, // kf6
        3630699 => 126, // kf7
        3696235 => 127, // kf8
        3761771 => 128, // kf9
        435627714667 => 129, // khome
        212204743019 => 130, // kich1
        829188459 => 131, // kil1
        212105257835 => 132, // kcub1
        7105643 => 133, // kll
        7368299 => 134, // knp
        7368811 => 135, // kpp
        212172366699 => 136, // kcuf1
        1684957547 => 137, // kind
        6910571 => 138, // kri
        1937008747 => 139, // khts
        212424024939 => 140, // kcuu1
        2020306290 => 141, // rmkx
        2020306291 => 142, // smkx
        3171948 => 143, // lf0
        3237484 => 144, // lf1
        808543852 => 145, // lf10
        3303020 => 146, // lf2
        3368556 => 147, // lf3
        3434092 => 148, // lf4
        3499628 => 149, // lf5
        3565164 => 150, // lf6
        3630700 => 151, // lf7
        3696236 => 152, // lf8
        3761772 => 153, // lf9
        7171442 => 154, // rmm
        7171443 => 155, // smm
        7103854 => 156, // nel
        6578544 => 157, // pad
        6841188 => 158, // dch
        27748 => 159, // dl
        6583651 => 160, // cud
        6841193 => 161, // ich
        1852075625 => 162, // indn
        27753 => 163, // il
        6452579 => 164, // cub
        6714723 => 165, // cuf
        7235954 => 166, // rin
        7697763 => 167, // cuu
        521392580208 => 168, // pfkey
        427071137392 => 169, // pfloc
        7890544 => 170, // pfx
        3171181 => 171, // mc0
        3433325 => 172, // mc4
        3498861 => 173, // mc5
        7366002 => 174, // rep
        3240818 => 175, // rs1
        3306354 => 176, // rs2
        3371890 => 177, // rs3
        26226 => 178, // rf
        25458 => 179, // rc
        6385782 => 180, // vpa
        25459 => 181, // sc
        6581865 => 182, // ind
        26994 => 183, // ri
        7497587 => 184, // sgr
        7566440 => 185, // hts
        1684957559 => 186, // wind
        29800 => 187, // ht
        7107444 => 188, // tsl
        25461 => 189, // uc
        30056 => 190, // hu
        444251402345 => 191, // iprog
        3236203 => 192, // ka1
        3367275 => 193, // ka3
        3301995 => 194, // kb2
        3236715 => 195, // kc1
        3367787 => 196, // kc3
        1882547053 => 197, // mc5p
        7368050 => 198, // rmp
        1668506465 => 199, // acsc
        7236720 => 200, // pln
        1952605035 => 201, // kcbt
        474316565875 => 202, // smxon
        474316565874 => 203, // rmxon
        1835101555 => 204, // smam
        1835101554 => 205, // rmam
        1668181880 => 206, // xonc
        426919751544 => 207, // xoffc
        495588568677 => 208, // enacs
        1852599667 => 209, // smln
        1852599666 => 210, // rmln
        _ => names::ALL,
    }
}

// The capability that a name means in the second edition, which knows every name.
pub fn find_all(name: &[u8]) -> Option<Found>
    ensures { result ≡ looking_up second_edition name.now }
{
    let k = place_of(pack(name));
    if k < names::BOOLEANS {
        return Some(Found::Boolean(Place(k)));
    }
    let numbers_end = names::BOOLEANS + names::NUMBERS;
    if k < numbers_end {
        return Some(Found::Number(Place(k - names::BOOLEANS)));
    }
    if k < names::ALL {
        return Some(Found::String(Place(k - numbers_end)));
    }
    None
}

// Whether an edition knows a capability.
fn is_known(edition: Edition, found: Found) -> bool
    ensures { (when result then Some found else None) ≡ known_in edition (Some found) }
{
    match found {
        Found::Boolean(p) => p.0 < edition.booleans,
        Found::Number(p) => p.0 < edition.numbers,
        Found::String(p) => p.0 < edition.strings,
    }
}

// What an edition knows of a capability that is found.
pub fn known_in(edition: Edition, found: Option<Found>) -> Option<Found>
    ensures { result ≡ known_in edition found }
{
    if is_known(edition, found?) {
        found
    } else {
        None
    }
}

// The capability that a name means in an edition.
pub fn find(name: &[u8], edition: Edition) -> Option<Found>
    ensures { result ≡ looking_up edition name.now }
{
    known_in(edition, find_all(name))
}
