ghost use Rattle.std.specs.Prelude.{◌≡◌, ◌≤◌, ℕ, Bool, true, false, List, [], ◌∷◌, ◌++◌, map, IsTrue};
ghost use Rattle.std.specs.List.{AllByRecursion};
ghost use Rattle.reorder_window.specs.Window.{accepted, is_accepted, released, answer, answer_accepted, AreFalling, IsPutInto};
ghost use Rattle.reorder_window.specs.Delivery.{IsSent, IsDelivery, occurs, AreLess, AreNumbersOf, IsTold};
ghost use Rattle.reorder_window.specs.declared.entry.Entry.{Entry};

/// A law that a proof can cite. Of a delivery within the size of a window, a packet is accepted
/// when it arrives for the first time, so it is neither late nor a repeat nor a conflict. The
/// accepted are the packets that arrived, each once. And what was released is below each packet
/// that arrives later for the first time.
#[inline]
pub fn first_arrivals_are_accepted<T>()
    ensures accepted { (start total size : ℕ) (packet : ℕ → Entry T) (order before after : List ℕ)
        (k : ℕ)
        → IsSent start total packet → IsDelivery size total order
        → order ≡ before ++ k ∷ after → occurs k before ≡ false
        → IsTrue (is_accepted size (accepted size (map packet before)) (packet k)) }
    ensures answered { (start total size : ℕ) (packet : ℕ → Entry T) (order before after : List ℕ)
        (k : ℕ) (same : T → T → Bool)
        → IsSent start total packet → IsDelivery size total order
        → order ≡ before ++ k ∷ after → occurs k before ≡ false
        → answer same size (map packet before) (packet k)
        ≡ answer_accepted (released size (map packet before ++ packet k ∷ []) 0) }
    ensures once { (start total size : ℕ) (packet : ℕ → Entry T) (order before later : List ℕ)
        → IsSent start total packet → IsDelivery size total order → order ≡ before ++ later
        → (numbers : List ℕ) × (accepted size (map packet before) ≡ map packet numbers)
        × AreNumbersOf before numbers }
    ensures below { (start total size : ℕ) (packet : ℕ → Entry T) (order before later : List ℕ)
        (k : ℕ)
        → IsSent start total packet → IsDelivery size total order
        → order ≡ before ++ later → occurs k before ≡ false → occurs k later ≡ true
        → (numbers : List ℕ) × (released size (map packet before) 0 ≡ map packet numbers)
        × AreLess k numbers }
{}

/// A law that a proof can cite. Of a delivery within the size of a window, by one list of numbers:
/// the accepted are the packets that arrived, each once; the released are the lowest of them, with
/// all that arrived below one; and the number lost before each released packet but the first is the
/// number of packets that never arrive between it and the one released before it: while packets
/// arrive, and while the held are drained afterwards.
#[inline]
pub fn numbers_lost_are_absent<T>()
    ensures arriving { (start total size : ℕ) (packet : ℕ → Entry T) (order before later : List ℕ)
        → IsSent start total packet → IsDelivery size total order → order ≡ before ++ later
        → IsTold packet size order before 0 }
    ensures draining { (start total size : ℕ) (packet : ℕ → Entry T) (order : List ℕ) (drained : ℕ)
        → IsSent start total packet → IsDelivery size total order
        → IsTold packet size order order drained }
{}

/// A law that a proof can cite, for every list of arrivals: the stamps of the accepted fall, so no
/// two are equal, and what a test says of all arrivals it says of all that are accepted.
///
/// Of no arrivals none is accepted. One more that is accepted is put among those that were, which
/// otherwise stay as they are; and one that is not leaves them so.
#[inline]
pub fn accepted_are_arrivals<T>()
    ensures falling { (size : ℕ) (arrivals : List (Entry T)) → AreFalling (accepted size arrivals) }
    ensures arrivals { (size : ℕ) (arrivals : List (Entry T)) (test : Entry T → Bool)
        → AllByRecursion (λ a. IsTrue (test a)) arrivals
        → AllByRecursion (λ a. IsTrue (test a)) (accepted size arrivals) }
    ensures none { (size : ℕ) → accepted {T = T} size [] ≡ [] }
    ensures one_more { (size : ℕ) (arrivals : List (Entry T)) (a : Entry T)
        → IsTrue (is_accepted size (accepted size arrivals) a)
        → IsPutInto a (accepted size arrivals) (accepted size (arrivals ++ a ∷ [])) }
    ensures no_more { (size : ℕ) (arrivals : List (Entry T)) (a : Entry T)
        → is_accepted size (accepted size arrivals) a ≡ false
        → accepted size (arrivals ++ a ∷ []) ≡ accepted size arrivals }
{}
