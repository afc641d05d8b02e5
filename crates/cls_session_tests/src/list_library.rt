/// Numbers, texts, and lists that may be ascending or descending, with a query for three texts of descending lists.
pub const DESCENDING_LISTS: &str = "\
sub Nat Int
kind a = Int | Str
kind b = Int | Str
comp input : List(Int)
comp words : List(Str)
comp sort : List($a) -> List($a) & Asc
comp rev : (List($a) -> List($a)) & (Asc -> Desc) & (Desc -> Asc)
comp dedup : (List($a) -> List($a)) & (Asc -> Asc) & (Desc -> Desc)
comp tail : (List($a) -> List($a)) & (Asc -> Asc) & (Desc -> Desc)
comp take : Nat -> (List($a) -> List($a)) & (Asc -> Asc) & (Desc -> Desc)
comp drop : Nat -> (List($a) -> List($a)) & (Asc -> Asc) & (Desc -> Desc)
comp map : ($a -> $b) -> List($a) -> List($b)
comp filter : ($a -> Bool) -> (List($a) -> List($a)) & (Asc -> Asc) & (Desc -> Desc)
comp fold : ($b -> $a -> $b) -> $b -> List($a) -> $b
comp concat : List($a) -> List($a) -> List($a)
comp zero : Nat
comp two : Nat
comp inc : Int -> Int
comp neg : Int -> Int
comp add : Int -> Int -> Int
comp mul : Int -> Int -> Int
comp max2 : Int -> Int -> Int
comp even : Int -> Bool
comp odd : Int -> Bool
comp less : Int -> Int -> Bool
comp not : Bool -> Bool
comp both : Bool -> Bool -> Bool
comp yes : Bool
comp length : List($a) -> Nat
comp sum : List(Int) -> Int
comp first : List($a) -> $a
comp last : List($a) -> $a
comp show : Int -> Str
comp parse : Str -> Int
comp upper : Str -> Str
comp trim : Str -> Str
comp cat : Str -> Str -> Str
comp empty : Str
comp split : Str -> List(Str)
comp join : List(Str) -> Str
comp size : Str -> Nat
comp isempty : List($a) -> Bool
comp pair : $a -> $b -> $a * $b
comp fst : $a * $b -> $a
comp snd : $a * $b -> $b
text input = xs
text sort = sorted({1})
text rev = reversed({1})
end
texts List(Int) & Desc max 4 take 3
";

/// What is written for it: 187 bytes.
pub const SORTED_TEXTS: &str = "\
term rev(sort(input))
text 20
reversed(sorted(xs))
term rev(sort(sort(input)))
text 28
reversed(sorted(sorted(xs)))
term rev(sort(rev(input)))
text 30
reversed(sorted(reversed(xs)))
more
";
