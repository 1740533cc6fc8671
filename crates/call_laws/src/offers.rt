// Theorems only: what holds of every offer and quote, whatever is lent.
